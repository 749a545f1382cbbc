// The half as a room, which threads act on in turns.
ghost use Rattle.std.specs.Prelude.{ℕ, ◌<◌};

use crate::half::IntakeHalf;
use crate::parts::{IntakeAnswer, IntakePart};
use series_model::Sample;
use turn_rooms::Room;

impl Room for IntakeHalf {
    type Act = IntakePart;

    type Answer = IntakeAnswer;

    ghost use Rattle.two_histories.specs.IntakeStep.{IntakeStep};
    ghost use Rattle.intake_half.specs.Parts.{MayBeAsked, FitsPart, answer_of, part_of};

    ghost asks = { MayBeAsked };

    ghost fits = { λ half who n part. FitsPart half part };

    ghost steps = { λ old who n part told new. IntakeStep who old (part_of part) (answer_of told) new };

    fn apply(&mut self, _who: u64, _n: u64, part: IntakePart) -> IntakeAnswer {
        match part {
            IntakePart::Offer {
                name,
                ty,
                t,
                line,
                now,
            } => IntakeAnswer::Offered(self.offer(name.bytes(), ty, Sample { t, line }, now)),
            IntakePart::Tick { row, now } => IntakeAnswer::Ticked(self.tick(row, now)),
            IntakePart::Doors => IntakeAnswer::DoorsLeft {
                doors: self.doors(),
            },
            IntakePart::DoorDone => IntakeAnswer::DoorsLeft {
                doors: self.door_done(),
            },
            IntakePart::LookForDoors => IntakeAnswer::SawDoors {
                doors: self.doors(),
            },
            IntakePart::LookForBatch { limit } => match self.look_for_batch(limit) {
                Ok(look) => IntakeAnswer::SawBatch(look),
                Err(_) => IntakeAnswer::Memory,
            },
            IntakePart::LookAt { name } => match self.look_at(name) {
                Ok(look) => IntakeAnswer::SawRow {
                    doors: self.doors(),
                    look,
                },
                Err(_) => IntakeAnswer::Memory,
            },
            IntakePart::Take { ends, rows } => match self.take(&ends, rows) {
                Ok(()) => IntakeAnswer::Took,
                Err(_) => IntakeAnswer::Memory,
            },
            IntakePart::TakeFlush { len, ends, rows } => match self.take_flush(len, &ends, rows) {
                Ok(()) => IntakeAnswer::Took,
                Err(_) => IntakeAnswer::Memory,
            },
        }
    }
}
