// One pin.
use disk_model::FileName;
use std::alloc::{AllocError, Global};
use std::marker::Model;

/// Whose a pin is, and the files that it names.
#[derive(Drop)]
pub(crate) struct Pin {
    owner: u64,
    files: Vec<FileName>,
}

impl Model for Pin {
    ghost use Rattle.pins.specs.Pinned.{PinnedNames};

    ghost Value = { PinnedNames };

    ghost view = { λ p. record { owner = p.owner; files = p.files.items } };
}

impl Pin {
    ghost use Rattle.std.specs.Prelude.{◌≡◌, IfOk};
    ghost use Rattle.pins.specs.Pinned.{names_file};

    pub(crate) fn new(alloc: Global, owner: u64, files: &[FileName]) -> Result<Pin, AllocError>
        ensures { IfOk result (λ pin. pin ≡ record { owner = owner; files = files.now }) }
    {
        let mut names = Vec::with_capacity(alloc, files.len())?;
        for file in files {
            names.push(file.copy(alloc)?)?;
        }
        Ok(Pin {
            owner,
            files: names,
        })
    }

    pub(crate) fn owner(&self) -> u64
        ensures { result ≡ self.now.owner }
    {
        self.owner
    }

    pub(crate) fn names(&self, file: &FileName) -> bool
        ensures { result ≡ names_file file.now self.now }
    {
        self.files.iter().any(|name| name.is_same(file))
    }
}
