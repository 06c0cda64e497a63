use cp_lang::StmtFault;
use cp_path::PathFault;
use cp_query::QueryFault;
use cp_sources::JsonFault;
use cp_store::StoreFault;
use std::alloc::{AllocError, AllocFailed};
use thiserror::Error;

/// What is wrong with a part, so that no call is made, or why a call fails.
#[derive(Debug, Drop, Error)]
pub(crate) enum Fault {
    /// The line is no row and no question.
    #[error("no row: {0}")]
    Row(String),
    #[error("{0}")]
    Place(PathFault),
    #[error("{0}")]
    Json(JsonFault),
    #[error("{0}")]
    Statement(StmtFault),
    /// The place isn't in the tree.
    #[error("no such place")]
    NoPlace,
    /// There is no store of that name.
    #[error("no store")]
    Name,
    /// The rows aren't those of the next steps, in their order.
    #[error("not the next rows")]
    Order,
    /// A row has a source and is no copy, or is a copy without one, or its source would be too deep.
    #[error("not a row that can be packed")]
    Source,
    /// The statement isn't an operation, or it inserts places below a root.
    #[error("not measured")]
    Operation,
    #[error("the disk failed")]
    Disk,
    #[error("out of memory")]
    Memory,
}

impl From<AllocError> for Fault {
    fn from(_refused: AllocError) -> Fault {
        Fault::Memory
    }
}

impl<T: Drop> From<AllocFailed<T>> for Fault {
    fn from(_refused: AllocFailed<T>) -> Fault {
        Fault::Memory
    }
}

impl From<PathFault> for Fault {
    fn from(fault: PathFault) -> Fault {
        match fault {
            PathFault::Memory => Fault::Memory,
            fault => Fault::Place(fault),
        }
    }
}

impl From<JsonFault> for Fault {
    fn from(fault: JsonFault) -> Fault {
        match fault {
            JsonFault::Memory => Fault::Memory,
            fault => Fault::Json(fault),
        }
    }
}

impl From<StmtFault> for Fault {
    fn from(fault: StmtFault) -> Fault {
        match fault {
            StmtFault::Memory => Fault::Memory,
            fault => Fault::Statement(fault),
        }
    }
}

impl From<StoreFault> for Fault {
    fn from(fault: StoreFault) -> Fault {
        match fault {
            StoreFault::Disk => Fault::Disk,
            StoreFault::Memory => Fault::Memory,
        }
    }
}

impl From<QueryFault> for Fault {
    fn from(fault: QueryFault) -> Fault {
        match fault {
            QueryFault::NoPlace => Fault::NoPlace,
            QueryFault::Disk => Fault::Disk,
            QueryFault::Memory => Fault::Memory,
        }
    }
}
