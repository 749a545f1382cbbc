//! Those who act on an archive.
ghost use Rattle.std.specs.Prelude.{◌≡◌, ℕ, List, [], ◌++◌, IfOk, OnErr};
ghost use Rattle.act_model.specs.Reply.{Reply, reply_of};
ghost use Rattle.act_model.specs.Machine.{Machine};
ghost use Rattle.act_model.specs.Sound.{IsSound};
ghost use Rattle.act_model.specs.Step.{MayAsk};
ghost use Rattle.act_model.specs.Answers.{IsAnswerOf};
ghost use Rattle.act_model.specs.History.{Entry, Done, Made, Acted, Goes, LastStep, MadeOne};
ghost use Rattle.act_model.specs.declared.acts.Act.{Act};

use crate::acts::{Act, Answer};
use disk_model::ReadAt;

/// No act is left: the history is as long as it can be.
#[derive(Drop)]
pub struct Spent;

/// One who acts on an archive, alone or beside others. What it knows is a history of the archive, which every act of
/// its own ends; the acts of others may stand in between.
pub trait Actor {
    /// What a piece of a pin is read by.
    type Reader: ReadAt;

    /// The number that its acts stand under.
    ghost number: { Self → ℕ };

    /// What it knows ends in this state.
    ghost stands: { Self → Machine → Type 0 };

    /// These entries lead from what it knew to what it knows.
    ghost between: { Self → List Entry → Self → Type 0 };

    /// No act is left for it.
    ghost is_spent: { Self → Type 0 };

    /// Acts. The answer's entry ends what the actor then knows, and no other entry that it has learnt is under its
    /// number. Where no act is left nothing was made under its number.
    fn act(&mut self, act: Act) -> Result<Answer<Self::Reader>, Spent>
        requires stands { (m : Machine) × stands self.old m }
        requires may_ask { MayAsk act }
        ensures done { IfOk result (λ answer. Acted number between self.old act
            (reply_of Self.Reader.tells Self.Reader.bytes Self.Reader.faults answer) self.new) }
        ensures spent { OnErr result (Made number between self.old [] self.new × is_spent self.new) }
        ensures stands { (n : Machine) × stands self.new n };

    /// What it has learnt is a run of the archive, from any state that it stood for.
    ghost legal: { (a b : Self) (entries : List Entry) (m : Machine) → between a entries b → stands a m
        → Goes (stands b) m entries };

    /// It stands for sound states alone.
    ghost sound: { (a : Self) (m : Machine) → stands a m → IsSound m };

    /// It has learnt nothing since now.
    ghost nothing: { (a : Self) → between a [] a };

    /// What it learnt first and what it learnt then is what it has learnt.
    ghost joined: { (a b c : Self) (xs ys : List Entry) → between a xs b → between b ys c → between a (xs ++ ys) c };

    /// Its number stays.
    ghost number_stays: { (a b : Self) (entries : List Entry) → between a entries b → number b ≡ number a };
}

/// One act, whose answer is one of the act's own. Just it was made under the actor's number.
pub fn ask<A: Actor>(actor: &mut A, act: Act) -> Result<Answer<A::Reader>, Spent>
    requires stands { (m : Machine) × A.stands actor.old m }
    requires may_ask { MayAsk act }
    ensures done { IfOk result (λ answer. MadeOne A.number A.between actor.old act
        (reply_of A.Reader.tells A.Reader.bytes A.Reader.faults answer) actor.new) }
    ensures own { IfOk result (λ answer. IsAnswerOf A.Reader.tells A.Reader.bytes A.Reader.faults act answer) }
    ensures spent { OnErr result (Made A.number A.between actor.old [] actor.new × A.is_spent actor.new) }
    ensures stands { (n : Machine) × A.stands actor.new n }
{
    actor.act(act)
}

/// What an actor's promises give together: what it made is told act by act, and each act of its own is a step of the
/// one history, in the state that the acts of others before it led to.
pub fn acts_are_steps<A: Actor>()
    ensures none { (a : A) → Made A.number A.between a [] a }
    ensures one { (a b : A) (act : Act) (answer : Reply) → Acted A.number A.between a act answer b
        → MadeOne A.number A.between a act answer b }
    ensures more { (a b c : A) (earlier later : List Done) → Made A.number A.between a earlier b
        → Made A.number A.between b later c
        → Made A.number A.between a (earlier ++ later) c }
    ensures last { (a b : A) (act : Act) (answer : Reply) (m : Machine) → A.stands a m
        → (acted : Acted A.number A.between a act answer b)
        → LastStep (A.stands b) m acted.others (A.number a) act answer }
{}
