// Tests and rules are handed on as they stand in the text, so these functions only go past them: each answers what follows.
ghost use Rattle.std.specs.Prelude.{◌≡◌};
ghost use Rattle.std.specs.Option.{option_map};
ghost use Rattle.commands.specs.Kind.{DecodesTest, DecodesAction};
ghost use Rattle.commands.specs.Lent.{left_after, AfterList};
ghost use Rattle.commands.specs.Reader.{read_test, read_action, read_rule, read_rules};

use crate::UnknownKind;
use crate::parts::{house, mark, name, number, number_up_to, person};

const MOST_RULES: u64 = 32;

const MOST_ACTIONS: u64 = 8;

// A test may hold tests, three more deep.
pub const DEEPEST_TEST: u8 = 4;

// A kind of test; its byte stands in `try_from`.
#[derive(Clone, Copy, PartialEq, Eq, Debug)]
enum TestKind {
    Always,
    FieldHas,
    FieldIs,
    Longer,
    Marked,
    Neither,
    Both,
    Either,
}

impl TryFrom<u8> for TestKind {
    type Error = UnknownKind;

    ghost try_from_gives = { DecodesTest };

    fn try_from(byte: u8) -> Result<TestKind, UnknownKind> {
        match byte {
            0 => Ok(TestKind::Always),
            1 => Ok(TestKind::FieldHas),
            2 => Ok(TestKind::FieldIs),
            3 => Ok(TestKind::Longer),
            4 => Ok(TestKind::Marked),
            5 => Ok(TestKind::Neither),
            6 => Ok(TestKind::Both),
            7 => Ok(TestKind::Either),
            _ => Err(UnknownKind(byte)),
        }
    }
}

// A kind of action; its byte stands in `try_from`.
#[derive(Clone, Copy, PartialEq, Eq, Debug)]
enum ActionKind {
    Keep,
    File,
    Away,
    OnTo,
    Mark,
    Halt,
}

impl TryFrom<u8> for ActionKind {
    type Error = UnknownKind;

    ghost try_from_gives = { DecodesAction };

    fn try_from(byte: u8) -> Result<ActionKind, UnknownKind> {
        match byte {
            0 => Ok(ActionKind::Keep),
            1 => Ok(ActionKind::File),
            2 => Ok(ActionKind::Away),
            3 => Ok(ActionKind::OnTo),
            4 => Ok(ActionKind::Mark),
            5 => Ok(ActionKind::Halt),
            _ => Err(UnknownKind(byte)),
        }
    }
}

// A test that is at most so deep.
#[tactic(auto, using(crate::proofs::Laws::no_test, crate::proofs::Laws::test_at), unfolding(crate::specs::Reader::by_kind))]
pub fn after_test(bytes: &[u8], depth: u8) -> Option<&[u8]>
    ensures { option_map (λ x. x.now) result ≡ left_after (read_test depth bytes.now) }
{
    let below = depth.checked_sub(1)?;
    let (byte, rest) = bytes.split_first()?;
    match TestKind::try_from(*byte).ok()? {
        TestKind::Always => Some(rest),
        TestKind::FieldHas | TestKind::FieldIs => Some(name(name(rest)?.1)?.1),
        TestKind::Longer => Some(number(rest)?.1),
        TestKind::Marked => Some(mark(rest)?.1),
        TestKind::Neither => after_test(rest, below),
        TestKind::Both | TestKind::Either => after_test(after_test(rest, below)?, below),
    }
}

// An action, with what its kind is followed by.
#[tactic(auto, unfolding(crate::specs::Reader::read_action, crate::specs::Reader::by_kind))]
fn after_action(bytes: &[u8]) -> Option<&[u8]>
    ensures { option_map (λ x. x.now) result ≡ left_after (read_action bytes.now) }
{
    let (byte, rest) = bytes.split_first()?;
    match ActionKind::try_from(*byte).ok()? {
        ActionKind::Keep | ActionKind::Away | ActionKind::Halt => Some(rest),
        ActionKind::File => Some(name(rest)?.1),
        ActionKind::OnTo => Some(person(house(rest)?.1)?.1),
        ActionKind::Mark => Some(mark(rest)?.1),
    }
}

// So many of something, at most so many, with their count before them.
fn after_list<F: Fn(&[u8]) -> Option<&[u8]>>(bytes: &[u8], most: u64, after_one: F) -> Option<&[u8]>
    requires { F.IsAlwaysCallable after_one }
    ensures { AfterList (F.post after_one) most bytes.now result }
{
    let (count, rest) = number_up_to(bytes, most)?;
    (0..count).try_fold(rest, |rest, _| after_one(rest))
}

// A rule: a test, and the actions that are done where it holds.
fn after_rule(bytes: &[u8]) -> Option<&[u8]>
    ensures { option_map (λ x. x.now) result ≡ left_after (read_rule bytes.now) }
{
    after_list(after_test(bytes, DEEPEST_TEST)?, MOST_ACTIONS, after_action)
}

// The rules of a person.
pub fn after_rules(bytes: &[u8]) -> Option<&[u8]>
    ensures { option_map (λ x. x.now) result ≡ left_after (read_rules bytes.now) }
{
    after_list(bytes, MOST_RULES, after_rule)
}
