//! Laws of the workload, over lists alone.
ghost use Rattle.std.specs.Prelude.{◌≡◌, ℕ, ◌<◌, ◌≤◌, List, pos, None, Ok};
ghost use Rattle.std.specs.Int.{IsInRange};
ghost use Rattle.std.specs.List.{AllByRecursion};
ghost use Rattle.pb_wire.specs.declared.payload.PayloadType.TheVariants.{ScalarInt};
ghost use Rattle.line_escape.specs.Unescaping.{Means};
ghost use Rattle.arch_time.specs.YearTime.{moment};
ghost use Rattle.pv_name.specs.Name.{IsName};
ghost use Rattle.series_model.specs.Series.{IsRising};
ghost use Rattle.pb_messages.specs.Event.{event_of};
ghost use Rattle.pb_messages.specs.Spelling.{event_text};
ghost use Rattle.pb_lines.specs.File.{IsFile};
ghost use Rattle.pb_lines.specs.Stream.{IsWholeStream};
ghost use Rattle.drill_feed.specs.declared.tiers.Tiers.{Tiers as TiersValue};
ghost use Rattle.drill_feed.specs.Tiers.{AreTiers};
ghost use Rattle.drill_feed.specs.Workload.{chunk_text, event_at, head_of, header_of, items_of, minutes, name_text};
ghost use Rattle.drill_feed.specs.Workload.{now_of, sample_at, samples};

use crate::drill::{START, VARIABLES};

/// A feed's bytes are the stream of its header, its samples and the chunk's end, and of nothing else. They are
/// also the bytes of a file.
pub fn chunks_are_streams()
    ensures streams { (hours variable : ℕ) → IsInRange 1 200 hours → variable < VARIABLES
        → IsWholeStream (chunk_text hours variable) (items_of hours variable) None }
    ensures files { (hours variable : ℕ) → IsInRange 1 200 hours → variable < VARIABLES
        → IsFile (chunk_text hours variable) (head_of variable) (header_of variable) (samples hours variable) }
{}

/// The line of each sample is read as its event: the variable's value of that minute, and no alarm.
pub fn samples_tell()
    ensures means { (hours variable minute : ℕ)
        → Means (sample_at hours variable minute).line (event_text (event_at hours variable minute)) }
    ensures read { (hours variable minute : ℕ) → IsInRange 1 200 hours → variable < VARIABLES
        → minute < minutes hours
        → event_of ScalarInt (event_text (event_at hours variable minute)) ≡ Ok (event_at hours variable minute) }
{}

/// Each variable's moments rise from the start on, and none is later than the clocks' moment.
pub fn samples_rise()
    ensures start { moment (pos 2024) 0 0 ≡ START }
    ensures rising { (hours variable : ℕ) → IsRising (samples hours variable) }
    ensures within { (hours variable : ℕ) → variable < VARIABLES
        → AllByRecursion (λ s. (START ≤ s.t) × (s.t ≤ now_of hours)) (samples hours variable) }
{}

/// The variables' names are names.
pub fn names_are_good()
    ensures { (variable : ℕ) → variable < VARIABLES → IsName (name_text variable) }
{}

/// The rule of moves leaves one number of files in each store.
pub fn one_end()
    ensures { (hours : ℕ) (a b : TiersValue) → AreTiers hours a → AreTiers hours b → a ≡ b }
{}
