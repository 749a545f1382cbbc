//! From any act's answer to the answer of one act. An answer of another act can't come, by condition, so each case that
//! is left out is proved never to be met.
ghost use Rattle.std.specs.Prelude.{◌≡◌, Bool, true};
ghost use Rattle.act_model.specs.Reply.{Reply, reply_of};
ghost use Rattle.act_model.specs.Answers.{answers_register, answers_pause, answers_resume, answers_rename};
ghost use Rattle.act_model.specs.Answers.{answers_offer, answers_tick, answers_flush, answers_move_begin};
ghost use Rattle.act_model.specs.Answers.{answers_move_step, answers_sweep, answers_pin, answers_open_piece};
ghost use Rattle.act_model.specs.Answers.{answers_unpin, answers_names, answers_details, answers_doors};
ghost use Rattle.act_model.specs.Asks.{registered_reply, paused_reply, resumed_reply, renamed_reply, offered_reply};
ghost use Rattle.act_model.specs.Asks.{ticked_reply, flushed_reply, move_begun_reply, move_stepped_reply, swept_reply};
ghost use Rattle.act_model.specs.Asks.{pinned_reply, piece_opened_reply, unpinned_reply, names_told_reply};
ghost use Rattle.act_model.specs.Asks.{details_told_reply, doors_left_reply};

use crate::acts::Answer;
use crate::answers::{
    DetailsTold, DoorsLeft, Flushed, MoveBegun, MoveStepped, NamesTold, Offered, Paused,
    PieceOpened, Pinned, Registered, Renamed, Resumed, Swept, Ticked, Unpinned,
};
use disk_model::ReadAt;

/// Just the answers of one act, of an actor whose readers are these.
pub(crate) trait OwnAnswer<R: ReadAt>: Sized {
    /// Which answers of a history are the act's own.
    ghost is_own: { Reply → Bool };

    /// The answer of the history that one of these stands for.
    ghost reply: { Self → Reply };

    /// The answer, as one of the act's own.
    fn narrow(answer: Answer<R>) -> Self
        requires { is_own (reply_of R.tells R.bytes R.faults answer) ≡ true }
        ensures { reply result ≡ reply_of R.tells R.bytes R.faults answer };
}

// The answer with the same name in the act's own type. None but those that are listed can come.
macro_rules! narrow {
    ($answer:ident, $own:ident: $($variant:ident $(($value:ident))? $({ $($field:ident),* })?),*) => {
        match $answer {
            $(Answer::$variant $(($value))? $({ $($field),* })? => $own::$variant $(($value))? $({ $($field),* })?,)*
            _ => unreachable!(),
        }
    };
}

impl<R: ReadAt> OwnAnswer<R> for Registered {
    ghost is_own = { answers_register };

    ghost reply = { registered_reply };

    fn narrow(answer: Answer<R>) -> Self
        requires { answers_register (reply_of R.tells R.bytes R.faults answer) ≡ true }
        ensures { registered_reply result ≡ reply_of R.tells R.bytes R.faults answer }
    {
        narrow!(
            answer, Registered:
            NameTaken { row }, KeyTaken { row }, CatalogueFull, DiskFault, Registered { row },
            Memory
        )
    }
}

impl<R: ReadAt> OwnAnswer<R> for Paused {
    ghost is_own = { answers_pause };

    ghost reply = { paused_reply };

    fn narrow(answer: Answer<R>) -> Self
        requires { answers_pause (reply_of R.tells R.bytes R.faults answer) ≡ true }
        ensures { paused_reply result ≡ reply_of R.tells R.bytes R.faults answer }
    {
        narrow!(answer, Paused: NoSuchVariable, NotRunning, DiskFault, Done, Memory)
    }
}

impl<R: ReadAt> OwnAnswer<R> for Resumed {
    ghost is_own = { answers_resume };

    ghost reply = { resumed_reply };

    fn narrow(answer: Answer<R>) -> Self
        requires { answers_resume (reply_of R.tells R.bytes R.faults answer) ≡ true }
        ensures { resumed_reply result ≡ reply_of R.tells R.bytes R.faults answer }
    {
        narrow!(answer, Resumed: NoSuchVariable, NotPaused, DiskFault, Done, Memory)
    }
}

impl<R: ReadAt> OwnAnswer<R> for Renamed {
    ghost is_own = { answers_rename };

    ghost reply = { renamed_reply };

    fn narrow(answer: Answer<R>) -> Self
        requires { answers_rename (reply_of R.tells R.bytes R.faults answer) ≡ true }
        ensures { renamed_reply result ≡ reply_of R.tells R.bytes R.faults answer }
    {
        narrow!(
            answer, Renamed:
            NoSuchVariable, RenameNotPaused { state, change, seen }, NameTaken { row },
            KeyTaken { row }, CatalogueFull, NotDurable { last, durable }, DiskFault,
            Renamed { row }, Memory
        )
    }
}

impl<R: ReadAt> OwnAnswer<R> for Offered {
    ghost is_own = { answers_offer };

    ghost reply = { offered_reply };

    fn narrow(answer: Answer<R>) -> Self
        requires { answers_offer (reply_of R.tells R.bytes R.faults answer) ≡ true }
        ensures { offered_reply result ≡ reply_of R.tells R.bytes R.faults answer }
    {
        narrow!(answer, Offered: Dropped(reason), IntakeFull { held }, Kept, Held, Memory)
    }
}

impl<R: ReadAt> OwnAnswer<R> for Ticked {
    ghost is_own = { answers_tick };

    ghost reply = { ticked_reply };

    fn narrow(answer: Answer<R>) -> Self
        requires { answers_tick (reply_of R.tells R.bytes R.faults answer) ≡ true }
        ensures { ticked_reply result ≡ reply_of R.tells R.bytes R.faults answer }
    {
        narrow!(
            answer, Ticked:
            NoRow, TickNone, NotDue { due }, Dropped(reason), IntakeFull { held },
            TickKept { t }, Memory
        )
    }
}

impl<R: ReadAt> OwnAnswer<R> for Flushed {
    ghost is_own = { answers_flush };

    ghost reply = { flushed_reply };

    fn narrow(answer: Answer<R>) -> Self
        requires { answers_flush (reply_of R.tells R.bytes R.faults answer) ≡ true }
        ensures { flushed_reply result ≡ reply_of R.tells R.bytes R.faults answer }
    {
        narrow!(answer, Flushed: DiskFault, Flushed { samples, left, doors }, Memory)
    }
}

impl<R: ReadAt> OwnAnswer<R> for MoveBegun {
    ghost is_own = { answers_move_begin };

    ghost reply = { move_begun_reply };

    fn narrow(answer: Answer<R>) -> Self
        requires { answers_move_begin (reply_of R.tells R.bytes R.faults answer) ≡ true }
        ensures { move_begun_reply result ≡ reply_of R.tells R.bytes R.faults answer }
    {
        narrow!(
            answer, MoveBegun:
            DiskFault, Begun { m, row, parts }, Busy { m }, Nothing { doors }, Memory
        )
    }
}

impl<R: ReadAt> OwnAnswer<R> for MoveStepped {
    ghost is_own = { answers_move_step };

    ghost reply = { move_stepped_reply };

    fn narrow(answer: Answer<R>) -> Self
        requires { answers_move_step (reply_of R.tells R.bytes R.faults answer) ≡ true }
        ensures { move_stepped_reply result ≡ reply_of R.tells R.bytes R.faults answer }
    {
        narrow!(
            answer, MoveStepped:
            NoMove, DiskFault, Damaged { name, at }, Copying, Copied, Published,
            Retired { parts }, Again { len, copied }, Memory
        )
    }
}

impl<R: ReadAt> OwnAnswer<R> for Swept {
    ghost is_own = { answers_sweep };

    ghost reply = { swept_reply };

    fn narrow(answer: Answer<R>) -> Self
        requires { answers_sweep (reply_of R.tells R.bytes R.faults answer) ≡ true }
        ensures { swept_reply result ≡ reply_of R.tells R.bytes R.faults answer }
    {
        narrow!(answer, Swept: DiskFault, Swept { files }, Memory)
    }
}

impl<R: ReadAt> OwnAnswer<R> for Pinned {
    ghost is_own = { answers_pin };

    ghost reply = { pinned_reply };

    fn narrow(answer: Answer<R>) -> Self
        requires { answers_pin (reply_of R.tells R.bytes R.faults answer) ≡ true }
        ensures { pinned_reply result ≡ reply_of R.tells R.bytes R.faults answer }
    {
        narrow!(
            answer, Pinned:
            NoSuchVariable, DiskFault, Pinned { pin, name, about, pieces, tail }, Memory
        )
    }
}

impl<R: ReadAt> OwnAnswer<R> for PieceOpened<R> {
    ghost is_own = { answers_open_piece };

    ghost reply = { piece_opened_reply R.tells R.bytes R.faults };

    fn narrow(answer: Answer<R>) -> Self
        requires { answers_open_piece (reply_of R.tells R.bytes R.faults answer) ≡ true }
        ensures { piece_opened_reply R.tells R.bytes R.faults result ≡ reply_of R.tells R.bytes R.faults answer }
    {
        narrow!(
            answer, PieceOpened:
            NoPin, NotYours { owner }, NoPiece { pieces }, DiskFault,
            Piece { reader, name, head_len, len }, Memory
        )
    }
}

impl<R: ReadAt> OwnAnswer<R> for Unpinned {
    ghost is_own = { answers_unpin };

    ghost reply = { unpinned_reply };

    fn narrow(answer: Answer<R>) -> Self
        requires { answers_unpin (reply_of R.tells R.bytes R.faults answer) ≡ true }
        ensures { unpinned_reply result ≡ reply_of R.tells R.bytes R.faults answer }
    {
        narrow!(answer, Unpinned: NoPin, NotYours { owner }, Unpinned)
    }
}

impl<R: ReadAt> OwnAnswer<R> for NamesTold {
    ghost is_own = { answers_names };

    ghost reply = { names_told_reply };

    fn narrow(answer: Answer<R>) -> Self
        requires { answers_names (reply_of R.tells R.bytes R.faults answer) ≡ true }
        ensures { names_told_reply result ≡ reply_of R.tells R.bytes R.faults answer }
    {
        narrow!(answer, NamesTold: NamesAre { names, more }, Memory)
    }
}

impl<R: ReadAt> OwnAnswer<R> for DetailsTold {
    ghost is_own = { answers_details };

    ghost reply = { details_told_reply };

    fn narrow(answer: Answer<R>) -> Self
        requires { answers_details (reply_of R.tells R.bytes R.faults answer) ≡ true }
        ensures { details_told_reply result ≡ reply_of R.tells R.bytes R.faults answer }
    {
        narrow!(answer, DetailsTold: NoSuchVariable, DiskFault, Described(details), Memory)
    }
}

impl<R: ReadAt> OwnAnswer<R> for DoorsLeft {
    ghost is_own = { answers_doors };

    ghost reply = { doors_left_reply };

    fn narrow(answer: Answer<R>) -> Self
        requires { answers_doors (reply_of R.tells R.bytes R.faults answer) ≡ true }
        ensures { doors_left_reply result ≡ reply_of R.tells R.bytes R.faults answer }
    {
        match answer {
            Answer::DoorsLeft { doors } => DoorsLeft { doors },
            _ => unreachable!(),
        }
    }
}
