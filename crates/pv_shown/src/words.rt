// The words of a command.
ghost use Rattle.std.specs.Prelude.{◌≡◌, ◌<◌, length, position, IfSome};
ghost use Rattle.pv_shown.specs.Commands as specified;

use crate::reading::Command;
use pv_script::{address_in, number_to};

// The last position.
pub(crate) const LAST_POSITION: u64 = 1_000_000;

// What a line asks for, if it is a command.
pub(crate) fn command_in(line: &[u8]) -> Option<Command>
    ensures { result ≡ specified.command_in line.now }
{
    match first_space(line) {
        Some(at) => two_words(&line[..at], &line[at + 1..]),
        None => one_word(line),
    }
}

fn first_space(line: &[u8]) -> Option<usize>
    ensures place { result ≡ position specified.is_space line.now }
    ensures within { IfSome result (λ at. at < length line.now) }
{
    line.iter().position(|b| *b == b' ')
}

fn one_word(word: &[u8]) -> Option<Command>
    ensures { result ≡ specified.one_word word.now }
{
    if word == b"next".as_slice() {
        Some(Command::Next)
    } else if word == b"prev".as_slice() {
        Some(Command::Prev)
    } else if word == b"list".as_slice() {
        Some(Command::List)
    } else if word == b"pairs".as_slice() {
        Some(Command::Pairs)
    } else {
        None
    }
}

fn two_words(word: &[u8], rest: &[u8]) -> Option<Command>
    ensures { result ≡ specified.two_words word.now rest.now }
{
    if word == b"go".as_slice() {
        Some(Command::Go(number_in(rest)?))
    } else if word == b"step".as_slice() {
        Some(Command::Step(number_in(rest)?))
    } else if word == b"back".as_slice() {
        Some(Command::Back(number_in(rest)?))
    } else if word == b"at".as_slice() {
        Some(Command::At(address_in(rest)?))
    } else {
        None
    }
}

// A number of turns: decimal, without a leading zero, from 1 to 1000000.
fn number_in(text: &[u8]) -> Option<u64>
    ensures { result ≡ specified.number_in text.now }
{
    number_to(text, LAST_POSITION)
}
