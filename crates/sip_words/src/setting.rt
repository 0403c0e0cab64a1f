//! Settings.

ghost use Rattle.std.specs.Prelude.{◌≡◌, map, option_map, IfOk};
ghost use Rattle.std.specs.List.{count_by};
ghost use Rattle.sip_words.specs.Reading as reading;
ghost use Rattle.sip_words.specs.Seen.{settings_seen};
ghost use Rattle.sip_words.specs.Settings as spec;

use std::alloc::{AllocError, Global};

/// An option and its value; that of `--dump` is empty.
#[derive(Clone, Copy)]
pub struct Setting<'a> {
    pub option: &'a str,
    pub value: &'a str,
}

/// The settings that words are.
pub fn settings_in<'a>(
    alloc: Global,
    words: &[&'a str],
) -> Result<Option<Vec<Setting<'a>>>, AllocError>
    ensures { IfOk result (λ found. option_map (λ v. settings_seen v.items) found ≡ reading.settings_in (map (λ w. w.now) words.now)) }
{
    let mut settings = Vec::new(alloc);
    let mut option = None;
    for word in words {
        option = with_word(&mut settings, option, word)?;
    }
    match option {
        Some(_) => Ok(None),
        None => Ok(Some(settings)),
    }
}

// One more word: a value, `--dump`, or an option whose value comes next, which is the answer.
fn with_word<'a>(
    settings: &mut Vec<Setting<'a>>,
    option: Option<&'a str>,
    word: &'a str,
) -> Result<Option<&'a str>, AllocError>
    ensures { IfOk result (λ next. (settings_seen settings.new.items, option_map (λ o. o.now) next)
        ≡ reading.with_word (settings_seen settings.old.items, option_map (λ o. o.now) option.entry) word.now) }
{
    if let Some(option) = option {
        settings.push(Setting {
            option,
            value: word,
        })?;
        return Ok(None);
    }
    if word != "--dump" {
        return Ok(Some(word));
    }
    settings.push(Setting {
        option: word,
        value: "",
    })?;
    Ok(None)
}

/// The value of an option, if it is set.
pub fn given<'a>(settings: &[Setting<'a>], option: &str) -> Option<&'a str>
    ensures { option_map (λ v. v.now) result ≡ spec.given (settings_seen settings.now) option.now }
{
    for setting in settings {
        if setting.option == option {
            return Some(setting.value);
        }
    }
    None
}

// How often an option is set.
fn times(settings: &[Setting<'_>], option: &str) -> usize
    ensures { result ≡ count_by (spec.sets option.now) (settings_seen settings.now) }
{
    settings
        .iter()
        .filter(|setting| setting.option == option)
        .count()
}

/// Whether each option is set at most once.
pub fn are_once(settings: &[Setting<'_>]) -> bool
    ensures { result ≡ spec.are_once (settings_seen settings.now) }
{
    for setting in settings {
        if times(settings, setting.option) > 1 {
            return false;
        }
    }
    true
}
