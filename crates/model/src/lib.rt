// The plain houses, the pages that they lie on, how a house runs, and what all of them promise: definitions in specs/, and here what
// holds of them, each statement on the contract of a function. It knows nothing of how a house keeps what it has.
#![tactic(auto)]

ghost use Rattle.model.specs.Always.{AlwaysSound, NeverAgain, PushesInParts, StaysReached};
ghost use Rattle.model.specs.Delivered.{Delivered};
ghost use Rattle.model.specs.Example.{TwoIslands};
ghost use Rattle.model.specs.Known.{CoreFromNothing};
ghost use Rattle.model.specs.Promise.{Ends, FlushedStays, NotLost, NumbersRise, OthersStay, PartsAlike, TakenOnce};

// The set of known commands grows one kind at a time, from none to the small core.
pub fn core_from_nothing()
    ensures { CoreFromNothing }
{}

// No letter gets lost by rules: it comes into some box, is passed on, or a rule said "away".
pub fn not_lost()
    ensures { NotLost }
{}

// Numbers in a box rise and stay below the next one, after any command.
pub fn numbers_rise()
    ensures { NumbersRise }
{}

// What comes goes from the beginning of what is still to come: nothing is taken twice or out of turn.
pub fn taken_once()
    ensures { TakenOnce }
{}

// Pushing in parts comes to pushing at once.
pub fn parts_alike()
    ensures { PartsAlike }
{}

// A mark changes nothing of anybody else.
pub fn others_stay()
    ensures { OthersStay }
{}

// A letter that may be passed on n times is passed on n times at most.
pub fn ends()
    ensures { Ends }
{}

// What was flushed stays, whatever a stop leaves of later writes to other pages.
pub fn flushed_stays()
    ensures { FlushedStays }
{}

// From the first houses on, after any turns and any parts of pushes: no letter is known as taken that wasn't, none that was taken had not been
// handed in, numbers in boxes rise, and every house can take any letter.
pub fn always_sound()
    ensures { AlwaysSound }
{}

// Whatever a command may leave, or a stop in its middle, by the main promise, can come about: so what always holds, holds of it.
pub fn stays_reached()
    ensures { StaysReached }
{}

// However pushes break off, what comes goes from the beginning of what is still to come, and a push of the rest leaves all as after one push.
pub fn pushes_in_parts()
    ensures { PushesInParts }
{}

// While a box is there its next number never falls, and under a number given out before no other letter is found: no number is used again.
pub fn never_again()
    ensures { NeverAgain }
{}

// No letter gets lost when it is delivered: it is last in a box here, or last among those that wait for another house, with fewer passings on left,
// or a rule here said "away".
pub fn delivered()
    ensures { Delivered }
{}

// Two islands, worked out: what each command of the table shows, what both houses have to keep in the end, and a push that breaks off and is made again.
pub fn two_islands()
    ensures { TwoIslands }
{}
