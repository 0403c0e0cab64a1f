//! The limits of names and values.

ghost use Rattle.std.specs.Prelude.{◌≡◌, map};
ghost use Rattle.std.specs.List.{list_all, list_any};
ghost use Rattle.std.specs.Str.{bytes_eq};
ghost use Rattle.sip_words.specs.Commands as spec;
ghost use Rattle.sip_words.specs.Seen.{setting_seen, settings_seen};

use crate::command::Command;
use crate::count::Count;
use crate::number::number_in;
use crate::setting::Setting;

pub const WORKERS: Count = Count {
    least: 1,
    most: 32,
    fallback: 1,
};

pub const SERVERS: Count = Count {
    least: 1,
    most: 8,
    fallback: 1,
};

pub const CACHE: Count = Count {
    least: 2,
    most: 64,
    fallback: 16,
};

pub const PUTS: Count = Count {
    least: 1,
    most: 16,
    fallback: 4,
};

pub const SERVER_CACHE: Count = Count {
    least: 1,
    most: 64,
    fallback: 16,
};

pub const DEMO_NUMBER: Count = Count {
    least: 0,
    most: u32::MAX,
    fallback: 0,
};

/// Whether words may name files.
pub fn are_names(words: &[&str]) -> bool
    ensures { result ≡ list_all spec.is_name (map (λ w. w.now) words.now) }
{
    for word in words {
        if !is_name(word) {
            return false;
        }
    }
    true
}

// Whether a word may name a file: it has a character, and doesn't begin with `-`.
fn is_name(word: &str) -> bool
    ensures { result ≡ spec.is_name word.now }
{
    match word.as_bytes() {
        [first, ..] => *first != b'-',
        [] => false,
    }
}

/// Whether settings are a command's.
pub fn are_settings_of(command: Command, settings: &[Setting<'_>]) -> bool
    ensures { result ≡ list_all (spec.is_setting_of command) (settings_seen settings.now) }
{
    for setting in settings {
        if !is_setting_of(command, setting) {
            return false;
        }
    }
    true
}

// Whether a setting is a command's.
fn is_setting_of(command: Command, setting: &Setting<'_>) -> bool
    ensures { result ≡ spec.is_setting_of command (setting_seen setting.now) }
{
    is_among(setting.option, command.options()) && fits(setting)
}

// Whether an option is one of others.
fn is_among(option: &str, others: &[&str]) -> bool
    ensures { result ≡ list_any (bytes_eq option.now) (map (λ o. o.now) others.now) }
{
    for other in others {
        if option == *other {
            return true;
        }
    }
    false
}

// Whether a value is one that its option may have.
fn fits(setting: &Setting<'_>) -> bool
    ensures { result ≡ spec.fits (setting_seen setting.now) }
{
    let value = setting.value;
    match setting.option {
        "--workers" => WORKERS.number(value).is_some(),
        "--servers" => SERVERS.number(value).is_some(),
        "--cache" => CACHE.number(value).is_some(),
        "--puts" => PUTS.number(value).is_some(),
        "--servercache" => SERVER_CACHE.number(value).is_some(),
        "--seed" => number_in(value.as_bytes()).is_some(),
        "--steps" => number_in(value.as_bytes()).is_some(),
        "--dump" => value.is_empty(),
        _ => is_name(value),
    }
}
