// Whole texts: the first byte says which kind of command the rest spells.
ghost use Rattle.std.specs.Prelude.{◌≡◌, ◌&&◌, nat_le, MatchOption};
ghost use Rattle.std.specs.Option.{ForSome};
ghost use Rattle.commands.specs.Lent.{and_rest, both_and_rest};
ghost use Rattle.commands.specs.Meaning.{Answers};
ghost use Rattle.commands.specs.Reader.{no_more, whole, only, read_number, read_mailbox};
ghost use Rattle.commands.specs.Reader.{read_hand_in, read_list, read_get};
ghost use Rattle.commands.specs.Reader.{read_set_mark, read_to_box, read_rule_set, read_find, command_of};

use crate::rules::{DEEPEST_TEST, after_rules, after_test};
use crate::{Command, Kind, parts};

// How many letters may be listed, and how many bytes may be got, by one command.
const MOST_LISTED: u64 = 1_000;

const MOST_BYTES: u64 = 65_536;

// The command, if nothing follows it.
fn complete<'a>(command: Command<&'a [u8]>, rest: &[u8]) -> Option<Command<&'a [u8]>>
    ensures { result ≡ no_more command.entry rest.now }
{
    rest.is_empty().then_some(command)
}

// The command that is made of what was read, if nothing follows it.
fn whole<'a, T, F: FnOnce(T) -> Command<&'a [u8]>>(
    read: Option<(T, &'a [u8])>,
    make: F,
) -> Option<Command<&'a [u8]>>
    requires { ForSome read (λ p. F.pre make p.0) }
    ensures { MatchOption read.entry (result ≡ None) (λ p. (c : _) × F.post make p.0 c × (result ≡ no_more c p.1.now)) }
{
    let (value, rest) = read?;
    complete(make(value), rest)
}

// A person, and a box of theirs by its name.
fn mailbox(bytes: &[u8]) -> Option<((u64, &[u8]), &[u8])>
    ensures { both_and_rest result ≡ read_mailbox bytes.now }
{
    let (person, rest) = parts::person(bytes)?;
    let (name, rest) = parts::name(rest)?;
    Some(((person, name), rest))
}

// How many letters to list: at least one.
fn list_count(bytes: &[u8]) -> Option<(u64, &[u8])>
    ensures { and_rest result ≡ only (λ k. nat_le 1 k && nat_le k 1000) read_number bytes.now }
{
    parts::number(bytes).filter(|(count, _)| (1..=MOST_LISTED).contains(count))
}

// A house, a person there, and the letter for them. Commands that read part after part are alike in form only: each has its own parts.
fn hand_in(bytes: &[u8]) -> Option<Command<&[u8]>>
    ensures { Answers result (whole read_hand_in bytes.now) }
{
    let (house, rest) = parts::house(bytes)?;
    let (person, rest) = parts::person(rest)?;
    let (letter, rest) = parts::letter(rest)?;
    complete(
        Command::HandIn {
            house,
            person,
            letter,
        },
        rest,
    )
}

// A box, from which letter on, and how many.
fn list(bytes: &[u8]) -> Option<Command<&[u8]>>
    ensures { Answers result (whole read_list bytes.now) }
{
    let ((person, mailbox), rest) = mailbox(bytes)?;
    let (from, rest) = parts::number(rest)?;
    let (count, rest) = list_count(rest)?;
    complete(
        Command::List {
            person,
            mailbox,
            from,
            count,
        },
        rest,
    )
}

// A letter in a box, from which byte on, and how many.
fn get(bytes: &[u8]) -> Option<Command<&[u8]>>
    ensures { Answers result (whole read_get bytes.now) }
{
    let ((person, mailbox), rest) = mailbox(bytes)?;
    let (number, rest) = parts::number(rest)?;
    let (from, rest) = parts::number(rest)?;
    let (count, rest) = parts::number_up_to(rest, MOST_BYTES)?;
    complete(
        Command::Get {
            person,
            mailbox,
            number,
            from,
            count,
        },
        rest,
    )
}

// A letter in a box, a mark, and whether it is to be there.
fn set_mark(bytes: &[u8]) -> Option<Command<&[u8]>>
    ensures { Answers result (whole read_set_mark bytes.now) }
{
    let ((person, mailbox), rest) = mailbox(bytes)?;
    let (number, rest) = parts::number(rest)?;
    let (mark, rest) = parts::mark(rest)?;
    let (on, rest) = parts::flag(rest)?;
    complete(
        Command::SetMark {
            person,
            mailbox,
            number,
            mark,
            on,
        },
        rest,
    )
}

// A letter in a box, and the box of the same person that it goes to.
fn to_box(bytes: &[u8]) -> Option<Command<&[u8]>>
    ensures { Answers result (whole read_to_box bytes.now) }
{
    let ((person, mailbox), rest) = mailbox(bytes)?;
    let (number, rest) = parts::number(rest)?;
    let (other, rest) = parts::name(rest)?;
    complete(
        Command::ToBox {
            person,
            mailbox,
            number,
            other,
        },
        rest,
    )
}

// The rules stand behind the person, up to the end of the text.
fn rule_set(bytes: &[u8]) -> Option<Command<&[u8]>>
    ensures { Answers result (whole read_rule_set bytes.now) }
{
    let (person, rules) = parts::person(bytes)?;
    complete(Command::Rules { person, rules }, after_rules(rules)?)
}

// The test stands behind the box, up to the end of the text.
fn find(bytes: &[u8]) -> Option<Command<&[u8]>>
    ensures { Answers result (whole read_find bytes.now) }
{
    let ((person, mailbox), test) = mailbox(bytes)?;
    complete(
        Command::Find {
            person,
            mailbox,
            test,
        },
        after_test(test, DEEPEST_TEST)?,
    )
}

// Any command, if all of the text spells it. A match, since of a table of functions it would have to be proved that each kind has an entry.
#[tactic(auto, unfolding(crate::specs::Reader::command_of, crate::specs::Reader::read_command, crate::specs::Reader::by_kind))]
pub fn command(text: &[u8]) -> Option<Command<&[u8]>>
    ensures { Answers result (command_of text.now) }
{
    let (byte, bytes) = text.split_first()?;
    match Kind::try_from(*byte).ok()? {
        Kind::Join => whole(parts::name(bytes), |name| Command::Join { name }),
        Kind::HandIn => hand_in(bytes),
        Kind::Boxes => whole(parts::person(bytes), |person| Command::Boxes { person }),
        Kind::NewBox => whole(
            mailbox(bytes),
            |(person, name)| Command::NewBox { person, name },
        ),
        Kind::DropBox => whole(
            mailbox(bytes),
            |(person, name)| Command::DropBox { person, name },
        ),
        Kind::List => list(bytes),
        Kind::Get => get(bytes),
        Kind::SetMark => set_mark(bytes),
        Kind::ToBox => to_box(bytes),
        Kind::Clear => whole(
            mailbox(bytes),
            |(person, mailbox)| Command::Clear { person, mailbox },
        ),
        Kind::Rules => rule_set(bytes),
        Kind::Find => find(bytes),
        Kind::Push => whole(parts::house(bytes), |house| Command::Push { house }),
    }
}
