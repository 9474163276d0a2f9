//! The resources of a service.

/// What of an instance a path names.
#[derive(Clone, Copy, Debug, PartialEq, Eq)]
pub enum InstancePart {
    /// The instance itself.
    Itself,
    /// Its calls.
    Calls,
    /// The call at this place of its journal.
    Call(u64),
    /// Fuel for that call.
    Fuel(u64),
    /// The end of that call before its time.
    Cancel(u64),
    /// Another try of that call, which waits for a device.
    Retry(u64),
    /// What it has written.
    Output,
    /// Its linear memory.
    Memory,
    /// Its transcript.
    Transcript,
    /// How many of its first calls are forgotten.
    Forgotten,
}

/// A resource of a service.
#[derive(Clone, Copy, Debug, PartialEq, Eq)]
pub enum Route<'a> {
    /// The page for operators.
    Page,
    /// Whether the service lives.
    Health,
    /// Whether it takes requests.
    Ready,
    /// What Prometheus reads.
    Metrics,
    /// The report of the host.
    Report,
    /// The epoch.
    Epoch,
    /// A pass of the scanner.
    Scan,
    /// The end of the service.
    Stop,
    /// All modules.
    Modules,
    /// The module whose bytes have this SHA-256.
    Module([u8; 32]),
    /// What that module exports.
    Exports([u8; 32]),
    /// All instances.
    Instances,
    /// An instance by its name, or a part of it.
    Instance(&'a [u8], InstancePart),
}
