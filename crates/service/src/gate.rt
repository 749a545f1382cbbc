// What is told of links as they are served.
ghost use Rattle.std.specs.Prelude.{ℕ};

use crate::served::Served;
use disk_model::{FileName, ReadAt};

/// Is told of each link that is served.
pub trait Gate {
    // It was told that a link is to be served at this post.
    ghost entered: { Self → ℕ → Type 0 };

    // It was told that a link was served at this post.
    ghost left: { Self → ℕ → Type 0 };

    /// A link is to be served at this post.
    fn enter(&self, post: usize)
        ensures told { entered self.now post };

    /// The link was served.
    fn leave(&self, post: usize)
        ensures told { left self.now post };

    /// A reply ended at this place of this file, where its first bad line begins.
    fn damaged(&self, _name: &FileName, _at: u64) {}
}

/// Does nothing of it.
#[derive(Clone, Copy, Drop)]
pub struct NoGate;

impl Gate for NoGate {
    ghost entered = { λ gate post. Unit {0} };

    ghost left = { λ gate post. Unit {0} };

    fn enter(&self, _post: usize) {}

    fn leave(&self, _post: usize) {}
}

/// A gate, and the post of whose links it is told.
#[derive(Drop)]
pub struct PostHook<'a, G> {
    pub gate: &'a G,
    pub post: usize,
}

impl<G: Gate> PostHook<'_, G> {
    // A link is to be served.
    pub(crate) fn enter(&self)
        ensures told { G.entered self.now.gate.now self.now.post }
    {
        self.gate.enter(self.post);
    }

    // The link was served so. It is told of the damage that a reply met too.
    pub(crate) fn leave<R: ReadAt>(&self, served: &Served<R>)
        ensures told { G.left self.now.gate.now self.now.post }
    {
        if let Served::Damaged { name, at } = served {
            self.gate.damaged(name, *at);
        }
        self.gate.leave(self.post);
    }
}
