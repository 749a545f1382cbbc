//! What a request asks for, and why it is refused.
ghost use Rattle.std.specs.Prelude.{◌≡◌};
ghost use Rattle.http_front.specs.Param.{name_of};

use edge_io::Failed;
use pb_messages::About;
use pv_name::PvName;
use sample_bins::Op;
use series_model::Query;
use std::alloc::AllocError;

/// A parameter of a query.
#[derive(Clone, Copy, Debug, PartialEq, Eq)]
pub enum Param {
    /// The name of a process variable.
    Pv,
    /// The name of a process variable, or an operator of bins and a name in parentheses.
    PvOrBins,
    /// The first moment that is asked for.
    From,
    /// The last moment that is asked for.
    To,
    /// The type of a variable's samples.
    TypeName,
    /// How a variable is sampled.
    SamplingMethod,
    /// How often a variable is sampled, in seconds.
    SamplingPeriod,
    /// The name that a variable gets.
    NewName,
}

impl Param {
    /// Its name in a query.
    pub fn name(self) -> &'static str
        ensures { result.now ≡ name_of self }
    {
        match self {
            Param::Pv => "pv",
            Param::PvOrBins => "pv",
            Param::From => "from",
            Param::To => "to",
            Param::TypeName => "type",
            Param::SamplingMethod => "samplingmethod",
            Param::SamplingPeriod => "samplingperiod",
            Param::NewName => "newname",
        }
    }
}

/// What a request asks for, by its path.
#[derive(Debug, Drop)]
pub enum WebCall {
    /// `/retrieval/data/getData.raw`
    Raw {
        pv: PvName,
        query: Query,
        op: Option<Op>,
    },
    /// `/retrieval/data/getData.json`
    Json {
        pv: PvName,
        query: Query,
        op: Option<Op>,
    },
    /// `/mgmt/bpl/getAllPVs`
    AllPvs,
    /// `/mgmt/bpl/getPVStatus`
    PvStatus {
        pv: PvName,
    },
    /// `/mgmt/bpl/getPVDetails`
    PvDetails {
        pv: PvName,
    },
    /// `/mgmt/bpl/archivePV`
    ArchivePv {
        pv: PvName,
        about: About,
    },
    /// `/mgmt/bpl/pauseArchivingPV`
    PausePv {
        pv: PvName,
    },
    /// `/mgmt/bpl/resumeArchivingPV`
    ResumePv {
        pv: PvName,
    },
    /// `/mgmt/bpl/renamePV`
    RenamePv {
        pv: PvName,
        newname: PvName,
    },
    /// `/mgmt/bpl/flush`
    FlushAll,
}

/// A request that is served.
#[derive(Debug, Drop)]
pub struct Request {
    /// What it asks for.
    pub call: WebCall,
    /// The minor version of HTTP/1, which is 0 or 1.
    pub version: u8,
}

/// Why there is no request, in the order in which it is told.
#[derive(Clone, Copy, Debug, PartialEq, Eq)]
pub enum HttpErr {
    /// A read failed, which the source has counted.
    SourceFault,
    /// No bytes that could follow would make a head, or the source ended within it.
    BadHead,
    /// The first 16,384 bytes have no whole head.
    HeadTooLong,
    /// The method isn't GET.
    BadMethod,
    /// Nothing is served at this path.
    BadPath,
    /// This parameter is missing or not of its form, and those before it are good.
    BadParameter { which: Param },
    /// Memory ran out.
    Memory,
}

impl From<AllocError> for HttpErr {
    ghost use Rattle.http_front.specs.declared.request.HttpErr.TheVariants.{Memory};

    ghost from_gives = { λ _ e. e ≡ Memory };

    fn from(_: AllocError) -> HttpErr {
        HttpErr::Memory
    }
}

impl From<Failed> for HttpErr {
    ghost use Rattle.http_front.specs.declared.request.HttpErr.TheVariants.{SourceFault};

    ghost from_gives = { λ _ e. e ≡ SourceFault };

    fn from(_: Failed) -> HttpErr {
        HttpErr::SourceFault
    }
}
