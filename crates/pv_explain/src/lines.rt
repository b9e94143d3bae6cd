//! The line of an event. The only error of these functions is want of memory; some of the line may have been added then.
ghost use Rattle.std.specs.Prelude.{◌≡◌, ◌++◌, [], if◌then◌else◌, Some, OnOk, codes};
ghost use Rattle.std.specs.Fmt.{decimal};
ghost use Rattle.pv_print.specs.Texts.{address_text};
ghost use Rattle.pv_prov.specs.TestNumbers.{test_text};
ghost use Rattle.pv_watch.specs.Lines.{text_of_instance, instance_text, survivors, survivors_of, first_told, making_of_pair, field, what_text};
ghost use Rattle.pv_watch.specs.LineParts.{event_line};
ghost use Rattle.pv_watch.specs.declared.event.What.TheVariants.{Made, Pair, Tried};
ghost use Rattle.pv_explain.specs.Told.{survivor};

use crate::known::Known;
use pv_print::address;
use pv_watch::{BLOCK_TEST, CODE_TEST, Event, LIVE_TEST, NoMemory, RANGE_TEST, SAME_TEST, What};
use std::alloc::Global;

/// The word of a test.
fn test_word(test: u8) -> &'static [u8]
    ensures { result.now ≡ test_text test }
{
    match test {
        LIVE_TEST => b"live",
        RANGE_TEST => b"range",
        BLOCK_TEST => b"block",
        SAME_TEST => b"same",
        CODE_TEST => b"code",
        _ => b"?",
    }
}

/// Adds a number under a word.
fn add_number(alloc: Global, text: &mut Vec<u8>, word: &str, n: u64) -> Result<(), NoMemory>
    ensures { OnOk result (text.new.items ≡ text.old.items ++ field word.now (decimal n)) }
{
    let number = format!(in alloc; " {word}={n}")?;
    text.extend_from_slice(number.as_bytes())?;
    Ok(())
}

/// Adds the word of a field, behind which its text stands.
fn add_word(text: &mut Vec<u8>, word: &[u8]) -> Result<(), NoMemory>
    ensures { OnOk result (text.new.items ≡ text.old.items ++ (codes " " ++ word.now ++ codes "=")) }
{
    text.push(b' ')?;
    text.extend_from_slice(word)?;
    text.push(b'=')?;
    Ok(())
}

/// Adds an address under a word.
fn add_address(alloc: Global, text: &mut Vec<u8>, word: &[u8], a: u64) -> Result<(), NoMemory>
    ensures { OnOk result (text.new.items ≡ text.old.items ++ field word.now (address_text a)) }
{
    add_word(text, word)?;
    let digits = match address(alloc, a) {
        Ok(digits) => digits,
        Err(_) => return Err(NoMemory),
    };
    text.extend_from_slice(digits.as_slice())?;
    Ok(())
}

impl Known<'_> {
    /// Adds an instance's name, and which of this name it is.
    fn add_name(&self, text: &mut Vec<u8>, name: u32, k: u64) -> Result<(), NoMemory>
        ensures { OnOk result (text.new.items ≡ text.old.items ++ text_of_instance self.now.names (Some (name, k))) }
    {
        if name >= self.names.len() {
            text.push(b'?')?;
            return Ok(());
        }
        text.extend_from_slice(self.names.text(name))?;
        let number = format!(in self.alloc; "#{k}")?;
        text.extend_from_slice(number.as_bytes())?;
        Ok(())
    }

    /// Adds who an instance is.
    fn add_instance(&self, text: &mut Vec<u8>, i: u64) -> Result<(), NoMemory>
        ensures { OnOk result (text.new.items ≡ text.old.items ++ instance_text self.now.seen self.now.names i) }
    {
        match self.making(i) {
            Some((name, k)) => self.add_name(text, name, k),
            None => {
                text.push(b'?')?;
                Ok(())
            }
        }
    }

    /// Adds a word, and who an instance is.
    fn add_who(&self, text: &mut Vec<u8>, word: &[u8], i: u64) -> Result<(), NoMemory>
        ensures { OnOk result (text.new.items ≡ text.old.items ++ (word.now ++ instance_text self.now.seen self.now.names i)) }
    {
        text.extend_from_slice(word)?;
        self.add_instance(text, i)
    }

    /// Adds an instance under a word.
    fn add_candidate(&self, text: &mut Vec<u8>, word: &[u8], i: u64) -> Result<(), NoMemory>
        ensures { OnOk result (text.new.items ≡ text.old.items ++ field word.now (instance_text self.now.seen self.now.names i)) }
    {
        add_word(text, word)?;
        self.add_instance(text, i)
    }

    /// Adds one of a pair's candidates, or `?` where the pair's making isn't told.
    fn add_survivor(&self, text: &mut Vec<u8>, candidate: Option<u64>) -> Result<(), NoMemory>
        ensures { OnOk result (text.new.items ≡ text.old.items ++ survivor self.now.seen self.now.names candidate) }
    {
        match candidate {
            Some(i) => self.add_instance(text, i),
            None => {
                text.push(b'?')?;
                Ok(())
            }
        }
    }

    /// Adds those of two candidates that passed a test, the low one first.
    fn add_passed(
        &self,
        text: &mut Vec<u8>,
        candidates: (Option<u64>, Option<u64>),
        low: bool,
        high: bool,
    ) -> Result<(), NoMemory>
        ensures { OnOk result (text.new.items ≡ text.old.items ++ survivors (survivor self.now.seen self.now.names candidates.0) (survivor self.now.seen self.now.names candidates.1) low high) }
    {
        if low {
            self.add_survivor(text, candidates.0)?;
            if high {
                text.push(b',')?;
                self.add_survivor(text, candidates.1)?;
            }
        } else if high {
            self.add_survivor(text, candidates.1)?;
        }
        Ok(())
    }

    /// Adds who passed a test of a pair.
    fn add_survivors(
        &self,
        text: &mut Vec<u8>,
        pair: u64,
        low: bool,
        high: bool,
    ) -> Result<(), NoMemory>
        ensures { OnOk result (text.new.items ≡ text.old.items ++ survivors_of self.now.seen self.now.names (first_told (making_of_pair pair) self.now.seen) low high) }
    {
        let candidates = match self.candidates(pair) {
            Some((low, high)) => (Some(low), Some(high)),
            None => (None, None),
        };
        self.add_passed(text, candidates, low, high)
    }

    /// Adds what is told of an instance's making. Its name is told by who it is.
    fn add_made(
        &self,
        text: &mut Vec<u8>,
        turn: u64,
        inst: u64,
        base: u64,
        size: u64,
    ) -> Result<(), NoMemory>
        ensures { OnOk result (text.new.items ≡ text.old.items ++ what_text self.now.seen self.now.names turn (Made inst 0 0 base size)) }
    {
        self.add_who(text, b"create ", inst)?;
        add_number(self.alloc, text, "turn", turn)?;
        add_address(self.alloc, text, b"base", base)?;
        add_number(self.alloc, text, "size", size)
    }

    /// Adds what is told of a pair's making.
    fn add_pair(
        &self,
        text: &mut Vec<u8>,
        turn: u64,
        pair: u64,
        address: u64,
        candidates: (u64, u64),
    ) -> Result<(), NoMemory>
        ensures { OnOk result (text.new.items ≡ text.old.items ++ what_text self.now.seen self.now.names turn (Pair pair address candidates.0 candidates.1)) }
    {
        let head = format!(in self.alloc; "pair {pair}")?;
        text.extend_from_slice(head.as_bytes())?;
        add_number(self.alloc, text, "turn", turn)?;
        add_address(self.alloc, text, b"address", address)?;
        self.add_candidate(text, b"low", candidates.0)?;
        self.add_candidate(text, b"high", candidates.1)
    }

    /// Adds what is told of a pair's use.
    fn add_use(
        &self,
        text: &mut Vec<u8>,
        turn: u64,
        pair: u64,
        test: u8,
        passed: (bool, bool),
    ) -> Result<(), NoMemory>
        ensures { OnOk result (text.new.items ≡ text.old.items ++ what_text self.now.seen self.now.names turn (Tried pair test passed.0 passed.1)) }
    {
        let head = format!(in self.alloc; "use {pair}")?;
        text.extend_from_slice(head.as_bytes())?;
        add_number(self.alloc, text, "turn", turn)?;
        add_word(text, b"test")?;
        text.extend_from_slice(test_word(test))?;
        add_word(text, b"left")?;
        self.add_survivors(text, pair, passed.0, passed.1)
    }

    /// Adds what an event tells, without the end of its line.
    fn add_what(&self, text: &mut Vec<u8>, turn: u64, what: &What) -> Result<(), NoMemory>
        ensures { OnOk result (text.new.items ≡ text.old.items ++ what_text self.now.seen self.now.names turn what.now) }
    {
        match *what {
            What::Made {
                inst,
                base,
                size,
                ..
            } => self.add_made(text, turn, inst, base, size),
            What::Ended { inst } => {
                self.add_who(text, b"end ", inst)?;
                add_number(self.alloc, text, "turn", turn)
            }
            What::Exposed { inst } => {
                self.add_who(text, b"expose ", inst)?;
                add_number(self.alloc, text, "turn", turn)
            }
            What::Pair {
                pair,
                address,
                low,
                high,
            } => self.add_pair(text, turn, pair, address, (low, high)),
            What::Tried {
                pair,
                test,
                low,
                high,
            } => self.add_use(text, turn, pair, test, (low, high)),
            What::Fault { .. } => {
                text.extend_from_slice(b"fault")?;
                add_number(self.alloc, text, "turn", turn)
            }
        }
    }

    /// Adds an event's line.
    fn add_event(&self, text: &mut Vec<u8>, e: &Event) -> Result<(), NoMemory>
        ensures { OnOk result (text.new.items ≡ text.old.items ++ event_line self.now.seen self.now.names e.now) }
    {
        self.add_what(text, e.turn, &e.what)?;
        text.push(b'\n')?;
        Ok(())
    }

    /// Adds an event's line, if it is wanted.
    pub(crate) fn add_if(&self, text: &mut Vec<u8>, wanted: bool, e: &Event) -> Result<(), NoMemory>
        ensures { OnOk result (text.new.items ≡ text.old.items ++ (if wanted then event_line self.now.seen self.now.names e.now else [])) }
    {
        if wanted {
            self.add_event(text, e)?;
        }
        Ok(())
    }
}
