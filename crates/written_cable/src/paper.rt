//! What the lines of a play are put on.
ghost use Rattle.std.specs.Prelude.{◌≡◌, ℕ, Bool, false};
ghost use Rattle.stapl_meaning.specs.Texts.{event_line, pin_line};
ghost use Rattle.stapl_meaning.specs.declared.events.Event.TheVariants.{Print, Usec, Hertz};
ghost use Rattle.stapl_code.specs.Safe.{constants_of};
ghost use Rattle.machine_memory.specs.Exports.{export_event};
ghost use Rattle.written_cable.specs.Papers.{Shown, HasPutLine};

use crate::line_writer;
use machine_memory::effects::Export;
use stapl_code::CodeLists;
use stapl_meaning::Held;
use tool_io::{Failed, Lines, Sink};

/// What the lines of a play are put on, as gathered lines. A port that lends it gives it back only if it is a parameter
/// of its own, and so a trait stands in front of the lines. Once a call has failed, no further one may be made.
///
/// `Failed` of each call only if the count of faults rose, or stands at its last value; then a front was put.
pub trait Paper {
    /// The bytes that are put and not yet written, and those that are written, if that is told.
    ghost shown: { Self → Shown };

    /// A call has failed.
    ghost failed: { Self → Bool };

    /// How often calls have failed.
    ghost faults: { Self → ℕ };

    /// The count stands at its last value.
    ghost is_last: { Self → Type 0 };

    /// Puts the line of a PRINT with this text.
    fn put_print(&mut self, text: &[u8]) -> Result<(), Failed>
        requires { failed self.old ≡ false }
        ensures { HasPutLine shown failed faults is_last self.old
            (event_line (Print text.now)) self.new result };

    /// Puts the line of an EXPORT.
    fn put_export(
        &mut self,
        code: &CodeLists,
        variables: &[Held],
        export: Export,
    ) -> Result<(), Failed>
        requires { failed self.old ≡ false }
        ensures { HasPutLine shown failed faults is_last self.old
            (event_line (export_event (constants_of code.now) variables.now export)) self.new result };

    /// Puts the line of a wait of n microseconds.
    fn put_usec(&mut self, n: u32) -> Result<(), Failed>
        requires { failed self.old ≡ false }
        ensures { HasPutLine shown failed faults is_last self.old
            (event_line (Usec n)) self.new result };

    /// Puts the line of a frequency of n hertz.
    fn put_hertz(&mut self, n: u32) -> Result<(), Failed>
        requires { failed self.old ≡ false }
        ensures { HasPutLine shown failed faults is_last self.old
            (event_line (Hertz n)) self.new result };

    /// Puts the line of these digits of clocks, and nothing if there is none.
    fn put_pins(&mut self, digits: &[u8]) -> Result<(), Failed>
        requires { failed self.old ≡ false }
        ensures { HasPutLine shown failed faults is_last self.old
            (pin_line digits.now) self.new result };
}

impl<K: Sink> Paper for Lines<'_, K> {
    ghost use Rattle.written_cable.specs.Papers.{shown_of, has_failed, faults_of, IsLastOf};

    ghost shown = { shown_of K.written };

    ghost failed = { has_failed };

    ghost faults = { faults_of K.faults };

    ghost is_last = { IsLastOf K.is_last };

    #[tactic(auto, using(crate::specs::PaperLaws::text_on))]
    fn put_print(&mut self, text: &[u8]) -> Result<(), Failed> {
        line_writer::put_print(self, text)
    }

    #[tactic(auto, using(crate::specs::PaperLaws::text_on))]
    fn put_export(
        &mut self,
        code: &CodeLists,
        variables: &[Held],
        export: Export,
    ) -> Result<(), Failed> {
        line_writer::put_export(self, code, variables, export)
    }

    #[tactic(auto, using(crate::specs::PaperLaws::text_on))]
    fn put_usec(&mut self, n: u32) -> Result<(), Failed> {
        line_writer::put_usec(self, n)
    }

    #[tactic(auto, using(crate::specs::PaperLaws::text_on))]
    fn put_hertz(&mut self, n: u32) -> Result<(), Failed> {
        line_writer::put_hertz(self, n)
    }

    #[tactic(auto, using(crate::specs::PaperLaws::text_on))]
    fn put_pins(&mut self, digits: &[u8]) -> Result<(), Failed> {
        line_writer::put_pins(self, digits)
    }
}
