//! What the words of the command line ask for; most are those of `epmd` (ERTS Reference Manual, epmd).
//!
//! It does not read the environment, and does not parse addresses: they stay a text.

ghost use Rattle.std.specs.{Prelude.◌<◌, Prelude.◌≤◌, Prelude.SomeIff, Prelude.MatchOption};
ghost use Rattle.std.specs.{Str.Parse.IsNumeral, Str.Parse.digits_value};
ghost use Rattle.std.specs.declared.net.socket_addr.SocketAddr.{SocketAddr};
ghost use Rattle.distmapd.specs.Words.{IsPlace};

use crate::key::{AwaitedValue, KEYS, Key};
use crate::refusal::{BadWord, WordError};
use crate::settings::{LogForm, Settings, Task};
use dist_names::number_32;
use std::net::{IpAddr, Ipv4Addr, SocketAddr};

/// After how many seconds a client is closed that has not asked. Source: ERTS Reference Manual, epmd.
const SECONDS: u32 = 60;

/// The most clients at once. Our own choice: four for each registration.
const CLIENTS: u32 = 4096;

/// The number that a word writes in decimal digits, from 1 to `most`.
pub fn number_of(word: &str, most: u32) -> Option<u32>
    ensures { SomeIff result (IsNumeral 10 word.now × (0 < digits_value 10 word.now) × (digits_value 10 word.now ≤ most)) (digits_value 10 word.now) }
{
    let number = number_32(word.as_bytes())?;
    if number == 0 || most < number {
        return None;
    }
    Some(number)
}

/// The place that a value of `-metrics` writes: a port of 127.0.0.1, or an IP address and a port. `None` if it writes none.
#[tactic(auto, using(crate::proofs::Places::no_place))]
pub fn metrics_place(word: &str) -> Option<SocketAddr>
    ensures { MatchOption result ((place : SocketAddr) → ¬ (IsPlace word.now place)) (IsPlace word.now) }
{
    match number_of(word, 65535) {
        Some(port) => Some(SocketAddr::new(IpAddr::V4(Ipv4Addr::LOCALHOST), port as u16)),
        None => match word.parse::<SocketAddr>() {
            Ok(place) if place.port() == 0 => None,
            Ok(place) => Some(place),
            Err(_) => None,
        },
    }
}

impl<'a> Settings<'a> {
    // Takes an option or a switch. Returns which value the next word is, if it is one.
    fn take_key(&mut self, word: &str) -> Result<Option<AwaitedValue>, WordError> {
        let Some((_, key)) = KEYS.iter().find(|row| row.0 == word) else {
            return Err(WordError::UnknownWord);
        };
        match key {
            Key::NotDone => return Err(WordError::NotDone),
            Key::Takes(value) => return Ok(Some(*value)),
            Key::Does(task) => self.task = *task,
            Key::Systemd => self.systemd = true,
            Key::Quiet => self.log = None,
        }
        Ok(None)
    }

    // Takes the value of an option.
    fn take_value(&mut self, value: AwaitedValue, word: &'a str) -> Result<(), WordError> {
        match value {
            AwaitedValue::Port => self.port = number_of(word, 65535).ok_or(
                WordError::BadPort,
            )? as u16,
            AwaitedValue::Addresses => self.addresses = Some(word),
            AwaitedValue::Seconds => {
                self.seconds = number_of(word, u32::MAX).ok_or(WordError::BadTimeout)?;
            }
            AwaitedValue::Clients => {
                self.clients = number_of(word, u32::MAX).ok_or(WordError::BadClients)?;
            }
            AwaitedValue::Log => self.log = match word {
                "text" => Some(LogForm::Text),
                "json" => Some(LogForm::Json),
                _ => return Err(WordError::BadLog),
            },
            AwaitedValue::Metrics => self.metrics = Some(word),
        }
        Ok(())
    }
}

/// What the words after the program's name ask for. Without any it is to serve, at `port` and the addresses of ERL_EPMD_ADDRESS. A
/// later word overrides an earlier one, and the first bad one is refused.
pub fn settings_of<'a>(
    words: &[&'a str],
    port: u16,
    addresses: Option<&'a str>,
) -> Result<Settings<'a>, BadWord<'a>> {
    let mut settings = Settings {
        task: Task::Serve,
        port,
        addresses,
        seconds: SECONDS,
        clients: CLIENTS,
        systemd: false,
        log: Some(LogForm::Text),
        metrics: None,
    };
    // The option whose value the next word is, with its own word.
    let mut awaits: Option<(AwaitedValue, &'a str)> = None;
    for &word in words {
        let taken = match awaits {
            Some((value, _)) => settings.take_value(value, word).map(|()| None),
            None => settings.take_key(word),
        };
        match taken {
            Ok(next) => awaits = next.map(|value| (value, word)),
            Err(why) => return Err(BadWord { word, why }),
        }
    }
    let why = WordError::NoValue;
    match awaits {
        Some((_, word)) => Err(BadWord { word, why }),
        None => Ok(settings),
    }
}
