use s38_base::ObjNum;
use s38_dataspaces::DataSpace;

/// What a data space holds.
#[derive(Drop)]
pub struct DataBody {
    pub space: DataSpace,
    /// The journal port through which its changes go, or 0.
    pub port: ObjNum,
}
