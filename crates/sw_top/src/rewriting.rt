// The calls of the host for a rewriting.
ghost use Rattle.std.specs.Prelude.{◌≡◌};
ghost use Rattle.sw_host.specs.Told.{Tells, Rose};
ghost use Rattle.sw_top.specs.Rewriting.{PerformsRewrite};

use crate::End;
use crate::command::Names;
use rewrite_core::{RewriteError, rewrite};
use std::alloc::Global;
use sw_host::{Host, HostFault};

/// The most bytes of a file that is rewritten: 16 MiB.
const GREATEST_SIZE: usize = 16_777_216;

/// The most bytes that are asked of a file: one more, so that a longer file shows.
const LIMIT: usize = 16_777_217;

/// The text of a map without entries.
const MAP_TEXT: &str = "secondwrite-map 1\n";

/// Loads IN, and stores the new file as OUT and the map as MAP.
pub fn perform_rewrite<H: Host>(alloc: Global, names: &Names, host: &mut H) -> End
    ensures performs { Tells (H.told host.old) (H.told host.new) (PerformsRewrite names.now result) }
    ensures cause { result ≡ End.Host → Rose (H.faults host.old) (H.faults host.new) }
    ensures form { result ≡ End.Usage → ⊥ }
{
    let bytes = match host.load(alloc, names.from.as_str(), LIMIT) {
        Ok(bytes) => bytes,
        Err(HostFault::Failed) => return End::Host,
        Err(HostFault::Memory) => return End::Memory,
    };
    if bytes.len() > GREATEST_SIZE {
        return End::TooLong;
    }
    let rewritten = match rewrite(alloc, bytes.as_slice()) {
        Ok(rewritten) => rewritten,
        Err(RewriteError::Refused(refusal)) => return End::Refused(refusal),
        Err(RewriteError::Memory) => return End::Memory,
    };
    match host.store(names.to.as_str(), rewritten.file.as_slice()) {
        Ok(()) => {}
        Err(HostFault::Failed) => return End::Host,
        Err(HostFault::Memory) => return End::Memory,
    }
    match host.store(names.map.as_str(), MAP_TEXT.as_bytes()) {
        Ok(()) => End::Done,
        Err(HostFault::Failed) => End::Host,
        Err(HostFault::Memory) => End::Memory,
    }
}
