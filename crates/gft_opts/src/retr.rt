ghost use Rattle.std.specs.Prelude.{◌≡◌, ◌++◌, ◌↔◌, IsTrue, IsOkUnless, Some, IfOk, OnOk, OnErr};
ghost use Rattle.std.specs.String.{string_bytes};
ghost use Rattle.gft_opts.specs.Retr.{FitsLayout, FitsParallel, FitsRetr, IsRetr, layout_settings};
ghost use Rattle.gft_opts.specs.Retr.{parallel_settings, retr_text, settings_text};
ghost use Rattle.gft_opts.specs.declared.error.OptsError.TheVariants as errors;
ghost use Rattle.gft_opts.specs.declared.retr.RetrOptions.{RetrOptions};

use crate::MAX_PARALLEL;
use crate::error::OptsError;
use crate::settings::read_settings;
use gft_base::{LIMIT, OutOfMemory};
use gft_layout::Layout;
use std::alloc::Global;

/// Options of RETR (GFD.20, OPTS RETR). What isn't named stays as it is.
#[derive(Clone, Copy, Debug, PartialEq, Eq)]
pub struct RetrOptions {
    /// How the file is laid out over the stripes.
    pub layout: Option<Layout>,
    /// With how many data connections a stripe starts, from 1 to 64.
    pub parallel: Option<u16>,
}

/// Reads options of RETR (GFD.20, OPTS RETR): items `key=value`, each ended by `;`, which may be
/// missing at the end. Letter case doesn't matter, and each key stands at most once.
///
/// `StripeLayout` is `Partitioned` or `Blocked`. `BlockSize` is from 1 to 2^48 - 1, and stands
/// with `Blocked` alone, which needs it. `Parallelism` is `start,min,max` with
/// `1 <= min <= start <= max <= 64`. `BadParameter` where the text is none; no memory is taken.
pub fn read_retr(text: &[u8]) -> Result<RetrOptions, OptsError>
    ensures options { IfOk result (IsRetr text.now) }
    ensures none { OnErr result ((options : RetrOptions) → ¬ IsRetr text.now options) }
    ensures bad { IsOkUnless result errors.BadParameter }
{
    let Some(said) = read_settings(text) else {
        return Err(OptsError::BadParameter);
    };
    match said.layout() {
        Some(layout) => Ok(RetrOptions {
            layout,
            parallel: said.parallel,
        }),
        None => Err(OptsError::BadParameter),
    }
}

impl RetrOptions {
    /// Whether the options have a text: a block size from 1 to 2^48 - 1, and a start from 1 to 64.
    pub fn fits(&self) -> bool
        ensures { IsTrue result ↔ FitsRetr self.now }
    {
        layout_fits(self.layout) && parallel_fits(self.parallel)
    }
}

fn layout_fits(layout: Option<Layout>) -> bool
    ensures { IsTrue result ↔ FitsLayout layout }
{
    match layout {
        Some(Layout::Blocked { block }) => 1 <= block && block <= LIMIT,
        Some(Layout::Partitioned) => true,
        None => true,
    }
}

fn parallel_fits(parallel: Option<u16>) -> bool
    ensures { IsTrue result ↔ FitsParallel parallel }
{
    match parallel {
        Some(start) => 1 <= start && start <= MAX_PARALLEL,
        None => true,
    }
}

/// The text of options that fit: StripeLayout, BlockSize and Parallelism, in this order, with the
/// start three times. `OutOfMemory` when it can't be allocated.
pub fn write_retr(alloc: Global, options: &RetrOptions) -> Result<Vec<u8>, OutOfMemory>
    requires { FitsRetr options.now }
    ensures text { IfOk result (λ text. text.items ≡ retr_text options.now) }
    ensures read_again { IfOk result (λ text. IsRetr text.items options.now) }
{
    let mut text = String::new(alloc);
    write_layout(&mut text, options.layout)?;
    write_parallel(&mut text, options.parallel)?;
    Ok(text.into_bytes())
}

fn write_layout(text: &mut String, layout: Option<Layout>) -> Result<(), OutOfMemory>
    ensures { OnOk result
        (string_bytes text.new ≡ string_bytes text.old ++ settings_text (layout_settings layout)) }
{
    match layout {
        None => Ok(()),
        Some(layout) => write_named(text, layout),
    }
}

fn write_named(text: &mut String, layout: Layout) -> Result<(), OutOfMemory>
    ensures { OnOk result (string_bytes text.new
        ≡ string_bytes text.old ++ settings_text (layout_settings (Some layout))) }
{
    match layout {
        Layout::Partitioned => write!(text, "StripeLayout=Partitioned;")?,
        Layout::Blocked { block } => write!(text, "StripeLayout=Blocked;BlockSize={block};")?,
    }
    Ok(())
}

fn write_parallel(text: &mut String, parallel: Option<u16>) -> Result<(), OutOfMemory>
    ensures { OnOk result (string_bytes text.new
        ≡ string_bytes text.old ++ settings_text (parallel_settings parallel)) }
{
    match parallel {
        None => Ok(()),
        Some(start) => {
            write!(text, "Parallelism={start},{start},{start};")?;
            Ok(())
        }
    }
}
