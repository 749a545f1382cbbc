//! The paths that are served.
ghost use Rattle.std.specs.Prelude.{◌≡◌, IfSome};
ghost use Rattle.http_front.specs.declared.path.Path.{Path};
ghost use Rattle.http_front.specs.Paths.{row_of};

/// A path that is served.
#[derive(Clone, Copy, Debug, PartialEq, Eq)]
pub enum Path {
    RawData,
    JsonData,
    AllPvs,
    PvStatus,
    PvDetails,
    ArchivePv,
    PausePv,
    ResumePv,
    RenamePv,
    FlushAll,
}

impl Path {
    const ALL: [Path; 10] = [
        Path::RawData,
        Path::JsonData,
        Path::AllPvs,
        Path::PvStatus,
        Path::PvDetails,
        Path::ArchivePv,
        Path::PausePv,
        Path::ResumePv,
        Path::RenamePv,
        Path::FlushAll,
    ];

    /// Its text in a request's target.
    pub fn text(self) -> &'static str
        ensures { result.now ≡ (row_of self).text }
    {
        match self {
            Path::RawData => "/retrieval/data/getData.raw",
            Path::JsonData => "/retrieval/data/getData.json",
            Path::AllPvs => "/mgmt/bpl/getAllPVs",
            Path::PvStatus => "/mgmt/bpl/getPVStatus",
            Path::PvDetails => "/mgmt/bpl/getPVDetails",
            Path::ArchivePv => "/mgmt/bpl/archivePV",
            Path::PausePv => "/mgmt/bpl/pauseArchivingPV",
            Path::ResumePv => "/mgmt/bpl/resumeArchivingPV",
            Path::RenamePv => "/mgmt/bpl/renamePV",
            Path::FlushAll => "/mgmt/bpl/flush",
        }
    }

    /// The path of this text, byte for byte.
    pub fn from_text(text: &[u8]) -> Option<Path>
        ensures found { IfSome result (λ path. (row_of path).text ≡ text.now) }
        ensures only { (path : Path) → (row_of path).text ≡ text.now → result ≡ Some path }
    {
        for path in Path::ALL {
            if path.text().as_bytes() == text {
                return Some(path);
            }
        }
        None
    }
}
