// What is done to a memory on shared frames and to a flat one, and whether both show the same.

ghost use Rattle.std.specs.Prelude.{◌≤◌, length};

use anyhow::{Result, ensure};
use wh_linmem::LinearMem;
use wh_model::{Got, Need};

/// Reads `count` bytes of both.
pub fn load<V: LinearMem, F: LinearMem>(
    view: &mut V,
    flat: &mut F,
    at: u64,
    count: usize,
    quickly: bool,
) -> Result<()>
    requires { count ≤ 4096 }
    ensures { V.keeps view.old view.new }
{
    let mut seen = [7; 4096];
    let mut wanted = [7; 4096];
    let loaded = flat.load(at, &mut wanted[..count]);
    if quickly && view.quick_load(at, &mut seen[..count]) {
        ensure!(
            loaded == Got::Value,
            "bytes beyond the end were read quickly"
        );
    } else {
        let got = view.load(at, &mut seen[..count]);
        ensure!(got == loaded, "a load at {at} came to {got:?}");
    }
    ensure!(seen == wanted, "a load at {at} read other bytes");
    Ok(())
}

/// Reads `count` bytes of both; tells whether it could be done at once. If not, checks that they aren't read.
pub fn load_if_ready<V: LinearMem, F: LinearMem>(
    view: &mut V,
    flat: &mut F,
    at: u64,
    count: usize,
    quickly: bool,
) -> Result<bool>
    requires { count ≤ 4096 }
    ensures { V.keeps view.old view.new }
{
    let need = Need {
        at,
        length: count,
        writes: false,
    };
    let end = at.saturating_add(count as u64);
    if view.is_ready(need) || end > 65536 * u64::from(flat.size()) {
        load(view, flat, at, count, quickly)?;
        return Ok(true);
    }
    let mut seen = [7; 4096];
    ensure!(
        view.load(at, &mut seen[..count]) == Got::NotReady(need),
        "a load at {at} wasn't ready and is done"
    );
    Ok(false)
}

/// Writes these bytes to both; tells whether it could be done at once. If no frame is free for it, the flat one is left
/// as it is, too.
pub fn store<V: LinearMem, F: LinearMem>(
    view: &mut V,
    flat: &mut F,
    at: u64,
    given: &[u8],
    quickly: bool,
) -> Result<bool>
    requires { length given.now ≤ 4096 }
    ensures { V.keeps view.old view.new }
{
    if quickly && view.quick_store(at, given) {
        ensure!(
            flat.store(at, given) == Got::Value,
            "bytes beyond the end were written"
        );
        return Ok(true);
    }
    let need = Need {
        at,
        length: given.len(),
        writes: true,
    };
    let is_ready = view.is_ready(need);
    let got = view.store(at, given);
    if got == Got::NotReady(need) {
        ensure!(!is_ready, "a store at {at} was ready and isn't done");
        return Ok(false);
    }
    ensure!(
        given.is_empty() || is_ready == (got == Got::Value),
        "a store at {at} was done and not ready"
    );
    ensure!(
        flat.store(at, given) == got,
        "a store at {at} came to {got:?}"
    );
    Ok(true)
}

/// Adds `pages` pages of 65536 bytes to both.
pub fn grow<V: LinearMem, F: LinearMem>(view: &mut V, flat: &mut F, pages: u32) -> Result<()>
    ensures { V.keeps view.old view.new }
{
    let grown = view.grow(pages);
    ensure!(flat.grow(pages) == grown, "a growth came to {grown:?}");
    ensure!(flat.size() == view.size(), "the sizes differ");
    Ok(())
}

/// Compares all bytes of both.
pub fn compare<V: LinearMem, F: LinearMem>(view: &mut V, flat: &mut F) -> Result<()> {
    ensure!(flat.size() == view.size(), "the sizes differ");
    for page in 0..u64::from(flat.size()) * 16 {
        load(view, flat, 4096 * page, 4096, false)?;
    }
    Ok(())
}
