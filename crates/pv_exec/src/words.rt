// The numbers of an event are those of the machine. Nothing is done here: each function says of what it gets only that its type is.
ghost use Rattle.pv_exec.specs.Words.{IsWord, IsWordIf, FitsWhat, FitsWords};

use pv_eval::Marked;
use pv_watch::What;

#[inline(always)]
fn is_word(n: u64)
    ensures { IsWord n }
{}

#[inline(always)]
fn is_word_if(n: Option<u64>)
    ensures { IsWordIf n }
{
    match n {
        Some(n) => is_word(n),
        None => {}
    }
}

#[inline(always)]
fn fits_what(what: What)
    ensures { FitsWhat what }
{
    match what {
        What::Made {
            inst,
            k,
            base,
            size,
            ..
        } => {
            is_word(inst);
            is_word(k);
            is_word(base);
            is_word(size);
        }
        What::Ended { inst } => is_word(inst),
        What::Exposed { inst } => is_word(inst),
        What::Pair {
            pair,
            address,
            low,
            high,
        } => {
            is_word(pair);
            is_word(address);
            is_word(low);
            is_word(high);
        }
        What::Tried { pair, .. } => is_word(pair),
        What::Fault {
            low,
            high,
            pair,
            ..
        } => {
            is_word_if(low);
            is_word_if(high);
            is_word_if(pair);
        }
    }
}

/// Whatever event it is, its numbers are those of 64 bits.
#[inline(always)]
pub fn fits_words(marked: &Marked)
    ensures { FitsWords marked.now }
{
    is_word(marked.event.turn);
    is_word(marked.mark);
    fits_what(marked.event.what);
}
