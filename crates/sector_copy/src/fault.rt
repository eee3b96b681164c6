use sector_dev::DeviceFault;
use thiserror::Error;

/// Why no copy can be made.
#[derive(Clone, Copy, Debug, PartialEq, Eq, Error)]
pub enum CopyFault {
    /// The source has fewer than two sectors, or no header slot of it starts with the eight bytes of a header.
    #[error("the source holds no journal")]
    NotOurs,
    /// One does, but no header is valid.
    #[error("the journal of the source is damaged: no header is valid")]
    Damaged,
    /// The source, or the device for the copy, has fewer sectors than the header in force says.
    #[error("the source, or the device for the copy, has fewer sectors than the journal says")]
    TooSmall,
    /// A read of the source failed, or a write or a sync of the copy.
    #[error("a read of the source failed, or a write or a sync of the copy")]
    Device,
}

impl From<DeviceFault> for CopyFault {
    ghost use Rattle.std.specs.Prelude.{◌≡◌};
    ghost use Rattle.sector_copy.specs.declared.fault.CopyFault.TheVariants.{Device};

    ghost from_gives = { λ _ fault. fault ≡ Device };

    fn from(_: DeviceFault) -> CopyFault {
        CopyFault::Device
    }
}
