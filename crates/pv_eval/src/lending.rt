// What waits in a moment: bytes that are printed and events, lent to whoever writes and tells them.
ghost use Rattle.std.specs.Prelude.{◌≡◌, ◌==◌, ◌&&◌, length};
ghost use Rattle.std.specs.Borrow.{Lends, sem};
ghost use Rattle.pv_eval.specs.Rows.{bytes_row, events_row};
ghost use Rattle.pv_eval.specs.contracts.moment.Moment.{the_row};

use crate::marked::Marked;
use crate::moment::Moment;

impl Moment {
    /// Whether nothing is printed that is not yet taken, and no event waits.
    #[inline(always)]
    pub fn is_quiet(&self) -> bool
        ensures { result ≡ (length self.now.printed == 0 && length self.now.waiting == 0) }
    {
        self.printed.is_empty() && self.waiting.is_empty()
    }

    /// The bytes that are printed and not yet taken, for whoever writes them.
    pub fn printed(&mut self) -> &mut Vec<u8>
        ensures* writes_back { sem 𝓛 (Lends the_row bytes_row self.entry result (λ w. record self.old { printed = w.items })) }
        ensures value { result.now.items ≡ self.old.printed }
    {
        &mut self.printed
    }

    /// The events that are not yet told, for whoever tells them.
    pub fn waiting(&mut self) -> &mut Vec<Marked>
        ensures* writes_back { sem 𝓛 (Lends the_row events_row self.entry result (λ w. record self.old { waiting = w.items })) }
        ensures value { result.now.items ≡ self.old.waiting }
    {
        &mut self.waiting
    }
}
