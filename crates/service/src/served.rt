// How a connection was served.
ghost use Rattle.std.specs.Prelude.{◌≡◌};

use admin_commands::AdminErr;
use disk_model::{FileName, ReadAt};
use feed_session::Fed;
use http_front::HttpErr;
use pb_lines::ChunkFault;
use retrieval_query::Retrieved;

/// What a connection is for.
#[derive(Clone, Copy, Debug, PartialEq, Eq)]
pub enum Kind {
    /// It brings samples.
    Feed,
    /// It brings one request.
    Http,
}

/// What the last line of a feed tells its peer.
#[derive(Clone, Copy, Debug, PartialEq, Eq)]
pub enum FeedTold {
    /// The stream was read to its end: so many of its samples were kept, held until a tick, and dropped. All
    /// that was kept is durable.
    Durable { kept: u64, held: u64, dropped: u64 },
    /// This line is the stream's first bad one. All that was kept before it is durable.
    Refused { line: u64, fault: ChunkFault },
    /// The disk failed, which it has counted.
    DiskFault,
}

/// How a connection was served.
#[derive(Drop)]
pub enum Served<R: ReadAt> {
    /// The whole reply to a request was written.
    Finished,
    /// The feed's last line was written, behind the lines for its chunks. It tells this.
    Fed { told: FeedTold },
    /// The bytes are no request that is served, and the whole reply that says so was written. It is neither a
    /// failed read nor want of memory.
    Refused { why: HttpErr },
    /// A read of this file failed, which it has counted, and a front of the reply to a request was written.
    /// Where there is none, the disk failed in an act, which it has counted; then that was written too, or the
    /// whole reply that says so.
    ReadFault { failed: Option<R> },
    /// The bytes of this file are no file of the variable's type; the first bad line begins at this place. A front of
    /// the reply to a request was written.
    Damaged { name: FileName, at: u64 },
    /// A read or a write of the link failed, which it has counted.
    PeerFault,
    /// No act is left. Of a request, the whole reply that says so was written, or a front of the reply.
    Spent,
    /// Memory ran out.
    Memory,
}

impl<R: ReadAt> From<Fed> for Served<R> {
    ghost use Rattle.service.specs.Serving.{fed_as};

    ghost from_gives = { λ end served. served ≡ fed_as end };

    fn from(end: Fed) -> Served<R> {
        match end {
            Fed::Fed {
                kept,
                held,
                dropped,
            } => Served::Fed {
                told: FeedTold::Durable {
                    kept,
                    held,
                    dropped,
                },
            },
            Fed::Refused { line, fault } => Served::Fed {
                told: FeedTold::Refused { line, fault },
            },
            Fed::PeerFault => Served::PeerFault,
            Fed::DiskFault => Served::Fed {
                told: FeedTold::DiskFault,
            },
            Fed::Spent => Served::Spent,
            Fed::Memory => Served::Memory,
        }
    }
}

impl<R: ReadAt> From<Retrieved<R>> for Served<R> {
    ghost use Rattle.service.specs.Requests.{replied_by};

    ghost from_gives = { λ end served. served ≡ replied_by end };

    fn from(end: Retrieved<R>) -> Served<R> {
        match end {
            Retrieved::Finished { .. } => Served::Finished,
            Retrieved::NoSuchVariable => Served::Finished,
            Retrieved::ReadFault { failed } => Served::ReadFault { failed },
            Retrieved::Damaged { name, at } => Served::Damaged { name, at },
            Retrieved::SinkFault => Served::PeerFault,
            Retrieved::Spent => Served::Spent,
            Retrieved::Memory => Served::Memory,
        }
    }
}

impl<R: ReadAt> From<AdminErr> for Served<R> {
    ghost use Rattle.service.specs.Requests.{stopped_by};

    ghost from_gives = { λ err served. served ≡ stopped_by err };

    fn from(err: AdminErr) -> Served<R> {
        match err {
            AdminErr::SinkFault => Served::PeerFault,
            AdminErr::Spent => Served::Spent,
            AdminErr::Memory => Served::Memory,
        }
    }
}
