//! The text of a report.

ghost use Rattle.std.specs.Prelude.{◌≡◌, ◌++◌, ◌≤◌, ◌-◌, ◌*◌, Some, OnOk, map, string_bytes};
ghost use Rattle.wh_script_model.specs.Texts.{frames_text, slots_text, shared_text, column, row_weight, rho_text, row_text};
ghost use Rattle.wh_host.specs.Reporting.{view_report, view_row, view_usage};
ghost use Rattle.wh_replies.specs.ReportTexts.{row_of, rows_text, head_text, report_text};

use std::alloc::AllocError;
use std::fmt;
use wh_host::{HostUsage, InstanceReport, Report};
use wh_space_model::Tax;

// Appends `# frames N used U free F` to a text.
fn write_frames(text: &mut String, frames: u32, used: u32) -> Result<(), AllocError>
    requires { used ≤ frames }
    ensures { OnOk result
        (string_bytes text.new ≡ string_bytes text.old ++ frames_text frames used) }
{
    let free = frames - used;
    writeln!(text, "# frames {frames} used {used} free {free}")
}

// Appends `# slots N used U free F` to a text.
fn write_slots(text: &mut String, slots: u32, used: u32) -> Result<(), AllocError>
    requires { used ≤ slots }
    ensures { OnOk result
        (string_bytes text.new ≡ string_bytes text.old ++ slots_text slots used) }
{
    let free = slots - used;
    writeln!(text, "# slots {slots} used {used} free {free}")
}

// Appends `# shared frames K sharers J` to a text.
fn write_shared(text: &mut String, frames: u32, sharers: u64) -> Result<(), AllocError>
    ensures { OnOk result
        (string_bytes text.new ≡ string_bytes text.old ++ shared_text frames sharers) }
{
    writeln!(text, "# shared frames {frames} sharers {sharers}")
}

// What the frames weigh: `den` for each idle one, and `den - num` for each active one.
fn weight(tax: Tax, instance: InstanceReport) -> u64
    ensures { result ≡ row_weight (row_of tax (view_row instance)) }
{
    let idle = instance.charged - instance.active;
    u64::from(instance.active) * u64::from(tax.den - tax.num) + u64::from(idle) * u64::from(tax.den)
}

// What the shares weigh.
fn weighed_shares(tax: Tax, instance: InstanceReport) -> u64
    ensures { result ≡ instance.shares * (tax.den - tax.num) }
{
    u64::from(instance.shares) * u64::from(tax.den - tax.num)
}

/// The fraction of shares to weight, not reduced, or `-` where there is no weight.
#[derive(Clone, Copy)]
struct Rho {
    tax: Tax,
    instance: InstanceReport,
}

impl fmt::Display for Rho {
    ghost output = { λ rho. Some (rho_text (row_of rho.tax (view_row rho.instance))) };

    fn fmt<W: fmt::Write>(&self, f: &mut fmt::Formatter<W>) -> fmt::Result {
        let weight = weight(self.tax, self.instance);
        if weight == 0 {
            return write!(f, "-");
        }
        let shares = weighed_shares(self.tax, self.instance);
        write!(f, "{shares}/{weight}")
    }
}

// Appends spaces up to the width, and then the number, to a text.
fn write_column(text: &mut String, width: usize, n: u64) -> Result<(), AllocError>
    requires above { 1 ≤ width }
    requires within { width ≤ 8 }
    ensures { OnOk result (string_bytes text.new ≡ string_bytes text.old ++ column width n) }
{
    write!(text, "{n:>width$}")
}

// Appends the line of an instance to a text: `#`, its number, shares, least and greatest number of frames, charged and
// active frames, swapped pages, right-aligned, and the fraction of its shares to what its frames weigh.
fn write_row(text: &mut String, tax: Tax, instance: InstanceReport) -> Result<(), AllocError>
    ensures { OnOk result
        (string_bytes text.new ≡ string_bytes text.old ++ row_text (row_of tax (view_row instance))) }
{
    write!(text, "#")?;
    write_column(text, 6, instance.number)?;
    write_column(text, 8, u64::from(instance.shares))?;
    write_column(text, 6, u64::from(instance.min))?;
    write_column(text, 6, u64::from(instance.max))?;
    write_column(text, 6, u64::from(instance.charged))?;
    write_column(text, 6, u64::from(instance.active))?;
    write_column(text, 6, u64::from(instance.swapped))?;
    let rho = Rho { tax, instance };
    writeln!(text, " {rho}")
}

// Appends the lines of these instances to a text.
fn write_rows(text: &mut String, tax: Tax, instances: &[InstanceReport]) -> Result<(), AllocError>
    ensures { OnOk result
        (string_bytes text.new ≡ string_bytes text.old ++ rows_text tax (map view_row instances.now)) }
{
    for instance in instances {
        write_row(text, tax, *instance)?;
    }
    Ok(())
}

// Appends the first three lines to a text.
fn write_head(text: &mut String, usage: HostUsage) -> Result<(), AllocError>
    ensures { OnOk result
        (string_bytes text.new ≡ string_bytes text.old ++ head_text (view_usage usage)) }
{
    write_frames(text, usage.frames, usage.used_frames)?;
    write_slots(text, usage.slots, usage.used_slots)?;
    write_shared(text, usage.shared_frames, usage.sharers)
}

/// Appends a report to a text: three lines on frames, slots and shared frames, and one for each instance, whose last
/// column is what its shares are to the weight of its frames.
///
/// # Errors
/// A growth of memory was refused; a beginning of the report may have been appended.
pub fn write_report(text: &mut String, report: &Report) -> Result<(), AllocError>
    ensures { OnOk result
        (string_bytes text.new ≡ string_bytes text.old ++ report_text (view_report report.now)) }
{
    write_head(text, report.usage)?;
    write_rows(text, report.usage.tax, &report.instances)
}
