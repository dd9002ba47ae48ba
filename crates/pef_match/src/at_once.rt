//! The alert of Alert Immediate.
ghost use Rattle.std.specs.Prelude.{◌≡◌, ◌≤◌, IfSome};
ghost use Rattle.std.specs.Option.{ForSome};
ghost use Rattle.lan_dest.specs.Kept.{kept};
ghost use Rattle.pef_config.specs.Places.{our_sizes};
ghost use Rattle.pef_config.specs.Kept.{tables};
ghost use Rattle.pef_match.specs.AtOnce.{target_at_once as target_at_once_of};
ghost use Rattle.pef_match.specs.Parts.{CanBeSent};
ghost use Rattle.pef_match.specs.Texts.{string_text};

use crate::target::Target;
use board_core::Text;
use lan_dest::{Lan, Ports};
use pef_config::Config;
use policy_walk::Stop;

/// The alert of Alert Immediate (IPMI 2.0, section 30.7) to the destination of this number on this channel, with the text of this string
/// where one is wanted, 0 to 8. There is none exactly where no alert can be sent to the destination.
pub fn target_at_once(
    config: &Config,
    lan: &Lan,
    ports: &Ports,
    channel: u8,
    number: u8,
    string: Option<u8>,
) -> Option<Target>
    requires { IfSome string (λ n. n ≤ 8) }
    ensures value { result ≡ target_at_once_of our_sizes (tables config.now) (kept lan.now) ports.now channel number string }
    ensures ready { ForSome result CanBeSent }
{
    let to = lan.destination(ports, channel, number)?;
    Some(Target {
        policy_number: 0,
        entry: 0,
        stop: Stop::default(),
        to,
        severity: 0x00,
        text: string_text(config, string),
    })
}

// The text of a string, where one is wanted.
fn string_text(config: &Config, string: Option<u8>) -> Text
    requires { IfSome string (λ n. n ≤ 8) }
    ensures { result ≡ string_text our_sizes (tables config.now) string }
{
    match string {
        Some(number) => config.strings().text(number),
        None => Text::new(),
    }
}
