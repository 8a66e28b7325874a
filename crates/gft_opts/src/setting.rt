ghost use Rattle.std.specs.Prelude.{◌≤◌, ◌↔◌, ℕ, IsTrue, MatchOption};
ghost use Rattle.gft_opts.specs.Setting.{IsBlockSize, IsKey, IsLayoutName, IsParallelism, IsSetting};
ghost use Rattle.gft_opts.specs.declared.setting.Key.{Key};
ghost use Rattle.gft_opts.specs.declared.setting.LayoutName.{LayoutName};
ghost use Rattle.gft_opts.specs.declared.setting.Setting.{Setting};
ghost use Rattle.gft_opts.specs.declared.TheConstants.{MAX_PARALLEL};

use crate::MAX_PARALLEL;
use gft_base::{LIMIT, read_decimal, split_first, split_word};
use gft_text::{Entry, Table};

/// What an option is called.
#[derive(Clone, Copy)]
pub(crate) enum Key {
    StripeLayout,
    BlockSize,
    Parallelism,
}

/// What a layout is called.
#[derive(Clone, Copy)]
pub(crate) enum LayoutName {
    Partitioned,
    Blocked,
}

/// What one item of the options says.
#[derive(Clone, Copy)]
pub(crate) enum Setting {
    StripeLayout(LayoutName),
    /// In bytes.
    BlockSize(u64),
    /// With how many data connections a stripe starts.
    Parallelism(u16),
}

const KEYS: Table = Table {
    entries: &[
        Entry {
            text: "StripeLayout",
            code: 1,
        },
        Entry {
            text: "BlockSize",
            code: 2,
        },
        Entry {
            text: "Parallelism",
            code: 3,
        },
    ],
};

const LAYOUTS: Table = Table {
    entries: &[
        Entry {
            text: "Partitioned",
            code: 1,
        },
        Entry {
            text: "Blocked",
            code: 2,
        },
    ],
};

/// Reads one item `key=value`.
pub(crate) fn read_setting(item: &[u8]) -> Option<Setting>
    ensures { MatchOption result
        ((setting : Setting) → ¬ IsSetting item.now setting) (IsSetting item.now) }
{
    let (key, value) = split_word(item, b'=');
    match read_key(key)? {
        Key::StripeLayout => Some(Setting::StripeLayout(read_layout_name(value)?)),
        Key::BlockSize => Some(Setting::BlockSize(read_block_size(value)?)),
        Key::Parallelism => Some(Setting::Parallelism(read_parallelism(value)?)),
    }
}

fn read_key(text: &[u8]) -> Option<Key>
    ensures { MatchOption result ((key : Key) → ¬ IsKey text.now key) (IsKey text.now) }
{
    match KEYS.find(text)? {
        1 => Some(Key::StripeLayout),
        2 => Some(Key::BlockSize),
        3 => Some(Key::Parallelism),
        _ => unreachable!(),
    }
}

fn read_layout_name(text: &[u8]) -> Option<LayoutName>
    ensures { MatchOption result
        ((name : LayoutName) → ¬ IsLayoutName text.now name) (IsLayoutName text.now) }
{
    match LAYOUTS.find(text)? {
        1 => Some(LayoutName::Partitioned),
        2 => Some(LayoutName::Blocked),
        _ => unreachable!(),
    }
}

fn read_block_size(text: &[u8]) -> Option<u64>
    ensures { MatchOption result
        ((block : ℕ) → ¬ IsBlockSize text.now block) (IsBlockSize text.now) }
{
    let block = read_decimal(text)?;
    if block < 1 || block > LIMIT {
        return None;
    }
    Some(block)
}

/// Reads `start,min,max`, and answers the start.
fn read_parallelism(text: &[u8]) -> Option<u16>
    ensures { MatchOption result
        ((start : ℕ) → ¬ IsParallelism text.now start) (IsParallelism text.now) }
{
    let (start, behind) = split_first(text, b',');
    let (least, most) = split_first(behind?, b',');
    let (start, least, most) = (
        read_decimal(start)?,
        read_decimal(least)?,
        read_decimal(most?)?,
    );
    if !are_ordered(least, start, most) {
        return None;
    }
    Some(start as u16)
}

fn are_ordered(least: u64, start: u64, most: u64) -> bool
    ensures { IsTrue result
        ↔ ((1 ≤ least) × (least ≤ start) × (start ≤ most) × (most ≤ MAX_PARALLEL)) }
{
    1 <= least && least <= start && start <= most && most <= u64::from(MAX_PARALLEL)
}
