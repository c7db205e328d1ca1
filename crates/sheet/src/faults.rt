// What is wrong with a line.
ghost use Rattle.std.specs.Prelude.{◌≡◌, ◌<◌};
ghost use Rattle.sheet.specs.Faults.{need, end_fault, period_fault, noise_fault, spread_fault, start_fault, keeps_fault, season_fault, is_given, words_fault, setting_fault, is_for_two, pair_fault, checks_fault, fault_of};

use crate::answers::{Noise, Wanted};
use crate::kinds::{Name, Word};
use crate::parts::{Fault, Given, Tokens};

// Err where a word is not what it has to be.
fn need(holds: bool, wanted: Wanted, word: u8) -> Result<(), Fault>
    ensures { result ≡ need holds wanted word }
{
    if holds {
        Ok(())
    } else {
        Err(Fault { wanted, word })
    }
}

fn end(w: Word, at: u8) -> Result<(), Fault>
    ensures { result ≡ end_fault w at }
{
    need(w.is_end(), Wanted::LineEnd, at)
}

fn period(t: Tokens) -> Result<(), Fault>
    ensures { result ≡ period_fault t }
{
    need(t.second.is_within(1, 999999999), Wanted::Seconds, 1)?;
    end(t.third, 2)
}

fn noise(t: Tokens) -> Result<(), Fault>
    ensures { result ≡ noise_fault t }
{
    need(t.second.is_spread(), Wanted::SdOrVariance, 1)?;
    need(t.third.is_number(), Wanted::Size, 2)?;
    if t.fourth.is_end() {
        return Ok(());
    }
    need(t.fourth.is_number(), Wanted::Size, 3)?;
    end(t.fifth, 4)
}

// A spread's two words, the first of them word `at` of the line, and the line's end.
fn spread(a: Word, b: Word, c: Word, at: u8) -> Result<(), Fault>
    requires { at < 9 }
    ensures { result ≡ spread_fault a b c at }
{
    need(a.is_spread(), Wanted::SdOrVariance, at)?;
    need(b.is_number(), Wanted::Size, at + 1)?;
    end(c, at + 2)
}

fn start(t: Tokens) -> Result<(), Fault>
    ensures { result ≡ start_fault t }
{
    if t.second.is_unknown() {
        return end(t.third, 2);
    }
    need(t.second.is_value(), Wanted::UnknownOrValue, 1)?;
    spread(t.third, t.fourth, t.fifth, 2)
}

// The thousandths that are kept, word `at` of the line, and the line's end. 0 is not taken: then nothing of a period's rate would be in the next, and a
// rate that is unknown would pass for known.
fn keeps(a: Word, b: Word, at: u8) -> Result<(), Fault>
    requires { at < 9 }
    ensures { result ≡ keeps_fault a b at }
{
    need(a.is_within(1, 999999999999999), Wanted::Thousandths, at)?;
    end(b, at + 1)
}

// Period 1 is not taken: a law that holds from there on is what rate-keeps says.
fn season(t: Tokens) -> Result<(), Fault>
    ensures { result ≡ season_fault t }
{
    need(t.second.is_within(2, 4096), Wanted::SeasonStart, 1)?;
    keeps(t.third, t.fourth, 2)
}

fn is_given(g: Given, name: Name) -> bool
    ensures { result ≡ is_given g name }
{
    match name {
        Name::Period => g.period.is_some(),
        Name::Noise => g.noise.is_some(),
        Name::Radio => g.radio.is_some(),
        Name::WanderOffset => g.wander_offset.is_some(),
        Name::WanderRate => g.wander_rate.is_some(),
        Name::StartOffset => g.offset.is_some(),
        Name::StartRate => g.rate.is_some(),
        Name::RateKeeps => g.rate_keeps.is_some(),
        Name::Season => g.season.is_some(),
    }
}

// The words after a setting's name.
fn words(name: Name, t: Tokens) -> Result<(), Fault>
    ensures { result ≡ words_fault name t }
{
    match name {
        Name::Period => period(t),
        Name::Noise => noise(t),
        Name::Radio | Name::WanderOffset | Name::WanderRate => {
            spread(t.second, t.third, t.fourth, 1)
        }
        Name::StartOffset | Name::StartRate => start(t),
        Name::RateKeeps => keeps(t.second, t.third, 1),
        Name::Season => season(t),
    }
}

fn setting(g: Given, periods: usize, name: Name, t: Tokens) -> Result<(), Fault>
    ensures { result ≡ setting_fault g periods name t }
{
    need(periods == 0, Wanted::SettingsFirst, 0)?;
    need(!is_given(g, name), Wanted::Once, 0)?;
    words(name, t)
}

fn is_for_two(noise: Option<Noise>) -> bool
    ensures { result ≡ is_for_two noise }
{
    matches!(noise, Some(Noise::Two(..)))
}

// A period's one check or two.
fn pair(table: bool, noise: Option<Noise>, t: Tokens) -> Result<(), Fault>
    ensures { result ≡ pair_fault table noise t }
{
    need(t.first.is_check(table), Wanted::Check, 0)?;
    if t.second.is_end() {
        return Ok(());
    }
    need(is_for_two(noise), Wanted::OneCheck, 1)?;
    need(t.second.is_check(table), Wanted::Check, 1)?;
    end(t.third, 2)
}

fn checks(table: bool, g: Given, periods: usize, t: Tokens) -> Result<(), Fault>
    ensures { result ≡ checks_fault table g periods t }
{
    need(g.period.is_some(), Wanted::PeriodSetting, 0)?;
    need(g.noise.is_some(), Wanted::NoiseSetting, 0)?;
    need(periods < 4096, Wanted::FewerPeriods, 0)?;
    pair(table, g.noise, t)
}

pub fn fault(table: bool, g: Given, periods: usize, t: Tokens) -> Result<(), Fault>
    ensures { result ≡ fault_of table g periods t }
{
    match t.first {
        Word::End => Ok(()),
        Word::Setting(name) => setting(g, periods, name, t),
        Word::Gap | Word::Planned | Word::Number(_) | Word::Negative(_) | Word::NoCheck => {
            checks(table, g, periods, t)
        }
        Word::Sd | Word::Variance | Word::Unknown | Word::Other => Err(Fault {
            wanted: Wanted::Line,
            word: 0,
        }),
    }
}
