ghost use Rattle.std.specs.Prelude.{◌≡◌, Option, Some, None, IsSome, MatchOption};
ghost use Rattle.std.specs.Option.{option_to_list};
ghost use Rattle.gft_layout.specs.declared.Layout.{Layout};
ghost use Rattle.gft_opts.specs.Retr.{IsRetr, SaysOptions, MakesLayout};
ghost use Rattle.gft_opts.specs.Settings.{Adds, IsTwice};
ghost use Rattle.gft_opts.specs.declared.retr.RetrOptions.{RetrOptions};

use crate::setting::{LayoutName, Setting, read_setting};
use gft_base::split_word;
use gft_layout::Layout;

/// What the items of a text say, each key at most once.
#[derive(Clone, Copy)]
pub(crate) struct Settings {
    layout: Option<LayoutName>,
    block: Option<u64>,
    pub(crate) parallel: Option<u16>,
}

impl Settings {
    /// With one setting more. `None` where its key was there.
    fn with(self, setting: Setting) -> Option<Settings>
        ensures { MatchOption result (IsTwice self setting) (Adds self setting) }
    {
        match setting {
            Setting::StripeLayout(name) => Some(Settings {
                layout: Some(once(self.layout, name)?),
                ..self
            }),
            Setting::BlockSize(block) => Some(Settings {
                block: Some(once(self.block, block)?),
                ..self
            }),
            Setting::Parallelism(start) => Some(Settings {
                parallel: Some(once(self.parallel, start)?),
                ..self
            }),
        }
    }

    /// The layout, where one is named. `None` where a block size stands without `Blocked`, or
    /// `Blocked` without a block size.
    pub(crate) fn layout(self) -> Option<Option<Layout>>
        ensures { MatchOption result
            ((layout : Option Layout) →
            ¬ MakesLayout (option_to_list self.layout) (option_to_list self.block) layout)
            (MakesLayout (option_to_list self.layout) (option_to_list self.block)) }
    {
        match (self.layout, self.block) {
            (None, None) => Some(None),
            (Some(LayoutName::Partitioned), None) => Some(Some(Layout::Partitioned)),
            (Some(LayoutName::Blocked), Some(block)) => Some(Some(Layout::Blocked { block })),
            (None, Some(_)) => None,
            (Some(LayoutName::Partitioned), Some(_)) => None,
            (Some(LayoutName::Blocked), None) => None,
        }
    }
}

/// The value, where none was before.
fn once<T: Copy>(before: Option<T>, value: T) -> Option<T>
    ensures { MatchOption result (IsSome before) (λ v. (v ≡ value) × (before ≡ None)) }
{
    match before {
        Some(_) => None,
        None => Some(value),
    }
}

/// Reads the items of a text, each ended by `;`, which may be missing at the end.
pub(crate) fn read_settings(text: &[u8]) -> Option<Settings>
    ensures { MatchOption result ((options : RetrOptions) → ¬ IsRetr text.now options)
        (λ said. SaysOptions text.now (option_to_list said.layout)
        (option_to_list said.block) (option_to_list said.parallel)) }
{
    let mut said = Settings {
        layout: None,
        block: None,
        parallel: None,
    };
    let mut rest = text;
    while !rest.is_empty() {
        let (item, behind) = split_word(rest, b';');
        said = said.with(read_setting(item)?)?;
        rest = behind;
    }
    Some(said)
}
