//! What the contents of an element that holds no others say.
ghost use Rattle.std.specs.Prelude.{◌≡◌, length};
ghost use Rattle.snmp_trap.specs.Reading.{Gives, number_at, this_at, enterprise_at, agent_at, body_at};

use crate::element::Element;
use crate::number::number_of;
use crate::refusal::{Refusal, Why};

/// 1.3.6.1.4.1.3183.1.1, the enterprise of Platform Event Traps (PET 1.0).
pub const ENTERPRISE: [u8; 9] = [0x2B, 0x06, 0x01, 0x04, 0x01, 0x98, 0x6F, 0x01, 0x01];

/// 1.3.6.1.4.1.3183.1.1.1, the name of the binding that holds the body (PET 1.0).
pub const BODY_NAME: [u8; 10] = [0x2B, 0x06, 0x01, 0x04, 0x01, 0x98, 0x6F, 0x01, 0x01, 0x01];

impl<'a> Element<'a> {
    /// What is wrong with the contents, at the place of the tag.
    fn refuse(&self, why: Why) -> Refusal
        ensures { result ≡ record { at = self.now.at; why = why } }
    {
        Refusal { at: self.at, why }
    }

    /// The contents as a number of 1 to 5 octets, below 2^32.
    #[tactic(auto, unfolding(crate::specs::Reading::number_at))]
    pub fn number(&self) -> Result<u32, Refusal>
        ensures { Gives (λ n. n) result (number_at self.now.at self.now.inside.at self.now.inside.octets.now) }
    {
        let contents = self.inside.octets;
        if contents.is_empty() || 5 < contents.len() {
            return Err(self.refuse(Why::Integer));
        }
        let number = number_of(contents);
        if number < 0x1_0000_0000 {
            Ok(number as u32)
        } else {
            Err(self.refuse(Why::Integer))
        }
    }

    /// The contents are this number.
    #[tactic(auto, unfolding(crate::specs::Reading::this_at))]
    pub fn this(&self, wanted: u32, why: Why) -> Result<(), Refusal>
        ensures { Gives (λ x. x) result (this_at wanted why self.now.at self.now.inside.at self.now.inside.octets.now) }
    {
        let number = self.number()?;
        if number == wanted {
            Ok(())
        } else {
            Err(self.refuse(why))
        }
    }

    /// The contents name the enterprise of Platform Event Traps.
    #[tactic(auto, unfolding(crate::specs::Reading::enterprise_at))]
    pub fn enterprise(&self) -> Result<(), Refusal>
        ensures { Gives (λ x. x) result (enterprise_at self.now.at self.now.inside.at self.now.inside.octets.now) }
    {
        if self.inside.octets == ENTERPRISE.as_slice() {
            Ok(())
        } else {
            Err(self.refuse(Why::Enterprise))
        }
    }

    /// The contents are an IPv4 address.
    #[tactic(auto, unfolding(crate::specs::Reading::agent_at))]
    pub fn agent(&self) -> Result<[u8; 4], Refusal>
        ensures { Gives (λ a. a) result (agent_at self.now.at self.now.inside.at self.now.inside.octets.now) }
    {
        match self.inside.octets {
            [a, b, c, d] => Ok([*a, *b, *c, *d]),
            _ => Err(Refusal {
                at: self.at + 1,
                why: Why::Length,
            }),
        }
    }

    /// The contents are a body, of 46 to 110 octets.
    #[tactic(auto, unfolding(crate::specs::Reading::body_at))]
    pub fn body(&self) -> Result<&'a [u8], Refusal>
        ensures { Gives (λ b. b.now) result (body_at self.now.at self.now.inside.at self.now.inside.octets.now) }
    {
        let contents = self.inside.octets;
        if contents.len() < 46 || 110 < contents.len() {
            Err(self.refuse(Why::Body))
        } else {
            Ok(contents)
        }
    }
}
