//! A reader of elements that can't reach past the element around it.
ghost use Rattle.std.specs.Prelude.{◌≡◌, ℕ, ◌+◌, ◌<◌, ◌≤◌, ◌^◌, length, IsTrue, nat_eq};
ghost use Rattle.snmp_trap.specs.Grammar.{number_of};
ghost use Rattle.snmp_trap.specs.Refusals.{over};
ghost use Rattle.snmp_trap.specs.Reading.{Gives, part, wanted_by, cut_at, length_at, element_at, ended};

use crate::element::{Element, Reader, Tags};
use crate::number::number_of;
use crate::refusal::{Refusal, Why};

impl Tags {
    fn allow(self, tag: u8) -> bool
        ensures { result ≡ wanted_by self tag }
    {
        match self {
            Tags::One(wanted) => tag == wanted,
            Tags::AnyValue => !(tag % 32 == 31),
        }
    }
}

impl<'a> Reader<'a> {
    /// The next element, with one of the wanted tags, and what stands behind it.
    pub fn element(self, wanted: Tags) -> Result<(Element<'a>, Reader<'a>), Refusal>
        ensures { Gives part result (element_at (over self.entry.at self.entry.octets.now) (wanted_by wanted) self.entry.at self.entry.octets.now) }
    {
        let past = Refusal {
            at: self.at,
            why: Why::Over,
        };
        self.element_or(wanted, past)
    }

    /// The same, with what is refused where the element reaches too far.
    #[tactic(auto, unfolding(crate::specs::Reading::element_at))]
    pub fn element_or(
        self,
        wanted: Tags,
        past: Refusal,
    ) -> Result<(Element<'a>, Reader<'a>), Refusal>
        ensures { Gives part result (element_at past (wanted_by wanted) self.entry.at self.entry.octets.now) }
    {
        match self.octets {
            [] => Err(past),
            [tag, more @ ..] => {
                if wanted.allow(*tag) {
                    length(self.at, more, past)
                } else {
                    Err(Refusal {
                        at: self.at,
                        why: Why::Tag,
                    })
                }
            }
        }
    }

    /// Nothing more stands here.
    pub fn ended(self) -> Result<(), Refusal>
        ensures { Gives (λ x. x) result (ended tt self.entry.at self.entry.octets.now) }
    {
        if self.octets.is_empty() {
            Ok(())
        } else {
            Err(Refusal {
                at: self.at,
                why: Why::Trailing,
            })
        }
    }
}

/// The length octets behind the tag at `at`, and the octets that they count.
#[tactic(auto, unfolding(crate::specs::Reading::length_at))]
fn length<'a>(
    at: usize,
    octets: &'a [u8],
    past: Refusal,
) -> Result<(Element<'a>, Reader<'a>), Refusal>
    requires { at + 1 + length octets.now < 2 ^ 64 }
    ensures { Gives part result (length_at past at octets.now) }
{
    match octets {
        [] => Err(past),
        [first, more @ ..] => {
            let first = *first as usize;
            if first < 0x80 {
                cut(at, at + 2, first, more, past)
            } else if first == 0x80 || 0x84 < first {
                Err(Refusal {
                    at: at + 1,
                    why: Why::Length,
                })
            } else if more.len() < first - 0x80 {
                Err(past)
            } else {
                let (digits, rest) = more.split_at(first - 0x80);
                cut(
                    at,
                    at + 2 + (first - 0x80),
                    number_of(digits) as usize,
                    rest,
                    past,
                )
            }
        }
    }
}

/// `count` octets of contents, and what stands behind them.
#[tactic(auto, unfolding(crate::specs::Reading::cut_at))]
fn cut<'a>(
    at: usize,
    inside: usize,
    count: usize,
    octets: &'a [u8],
    past: Refusal,
) -> Result<(Element<'a>, Reader<'a>), Refusal>
    requires behind_tag { at < inside }
    requires in_input { inside + length octets.now < 2 ^ 64 }
    ensures { Gives part result (cut_at past at inside count octets.now) }
{
    if octets.len() < count {
        return Err(past);
    }
    let (contents, rest) = octets.split_at(count);
    let inside = Reader {
        at: inside,
        octets: contents,
    };
    let after = Reader {
        at: inside.at + count,
        octets: rest,
    };
    Ok((Element { at, inside }, after))
}
