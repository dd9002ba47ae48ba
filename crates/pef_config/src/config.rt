//! The parameters.
use crate::initial::Initial;
use crate::parameter::{
    ACTIONS, CONTROL, DELAY, FILTER, FILTER_COUNT, FILTERS, FIRST_OCTET, GUID, NO_PARAMETER,
    POLICIES, POLICY, POLICY_COUNT, READ_ONLY, SET_IN_PROGRESS, STRING, STRING_COUNT, STRING_KEY,
    STRINGS,
};
use crate::policies::{policy_reply, put_policy};
use crate::reading::{filter_reply, first_octet_reply, is_parameter, refusal, reply_with};
use crate::strings::{block_reply, key_reply, put_block, put_key};
use crate::writing::{put_filter, put_first_octet, put_guid, put_octet, put_progress};
use alert_strings::Strings;
use board_core::Octets;
use filter_table::{Filter, Filters};
use policy_table::Policies;

/// The PEF configuration parameters 0 to 3 and 5 to 13 (IPMI 2.0, section 30.3).
#[derive(Drop)]
pub struct Config {
    set_in_progress: u8,
    control: u8,
    actions: u8,
    delay: u8,
    filters: Filters,
    policies: Policies,
    guid: [u8; 17],
    strings: Strings,
}

impl Config {
    ghost use Rattle.std.specs.Prelude.{◌≡◌, ◌≢◌, ℕ, List, [], ◌∷◌, ◌++◌};
    ghost use Rattle.filter_table.specs.Filters.{numbered};
    ghost use Rattle.pef_config.specs.declared.initial.Initial.{Initial};
    ghost use Rattle.pef_config.specs.Places.{our_sizes, Control, Actions, Delay, Policy, StringKey, Block, filter_at, guid_in, Write, write, with_write, power_writes, powered, Holds, PutsAt};
    ghost use Rattle.pef_config.specs.Rows.{set_code, get_reply};
    ghost use Rattle.pef_config.specs.Kept.{tables, key_at, block_at};

    /// The parameters as nobody has written them yet.
    pub fn new(initial: &Initial) -> Config
        ensures { Holds our_sizes initial.now [] (tables result) }
    {
        let mut filters = Filters::new();
        // there is always a filter 1
        let _ = filters.set(1, Filter::read(&initial.filter));
        Config {
            set_in_progress: 0,
            control: initial.control,
            actions: initial.actions,
            delay: initial.delay,
            filters,
            policies: Policies::new(),
            guid: [0; 17],
            strings: Strings::new(),
        }
    }

    /// Writes a parameter from the octets behind its number, and answers the completion code. A code other than 00h changes
    /// nothing.
    pub fn set(&mut self, parameter: u8, payload: &[u8]) -> u8
        ensures code { result ≡ set_code our_sizes (tables self.old) parameter payload.now }
        ensures written { result ≡ 0x00 → PutsAt (write parameter payload.now) (tables self.old) (tables self.new) }
        ensures kept { result ≢ 0x00 → self.new ≡ self.old }
        ensures values { (initial : Initial) (writes : List Write)
            → Holds our_sizes initial writes (tables self.old)
            → Holds our_sizes initial (with_write result (write parameter payload.now) writes) (tables self.new) }
    {
        match parameter {
            SET_IN_PROGRESS => put_progress(&mut self.set_in_progress, payload),
            CONTROL => put_octet(&mut self.control, payload),
            ACTIONS => put_octet(&mut self.actions, payload),
            DELAY => put_octet(&mut self.delay, payload),
            FILTER_COUNT | POLICY_COUNT | STRING_COUNT => READ_ONLY,
            FILTER => put_filter(&mut self.filters, payload),
            FIRST_OCTET => put_first_octet(&mut self.filters, payload),
            POLICY => put_policy(&mut self.policies, payload),
            GUID => put_guid(&mut self.guid, payload),
            STRING_KEY => put_key(&mut self.strings, payload),
            STRING => put_block(&mut self.strings, payload),
            _ => NO_PARAMETER,
        }
    }

    /// The power came back: set in progress, and string 0 with its key, which are volatile, become zeros.
    pub fn power(&mut self)
        ensures powered { tables self.new ≡ powered (tables self.old) }
        ensures values { (initial : Initial) (writes : List Write)
            → Holds our_sizes initial writes (tables self.old)
            → Holds our_sizes initial (power_writes ++ writes) (tables self.new) }
    {
        // each of these writes is accepted, and a block is filled up with 00h
        self.set(STRING, &[0, 4, 0]);
        self.set(STRING, &[0, 3, 0]);
        self.set(STRING, &[0, 2, 0]);
        self.set(STRING, &[0, 1, 0]);
        self.set(STRING_KEY, &[0, 0, 0]);
        self.set(SET_IN_PROGRESS, &[0]);
    }

    /// The reply to a read of a parameter, from the completion code on: the revision, and unless that alone is asked for, the selector of
    /// a table's entry and the value. The selector counts by its bits 6:0; the block is that of a string.
    pub fn get(&self, parameter: u8, revision_only: bool, set: u8, block: u8) -> Octets
        ensures { result ≡ get_reply our_sizes (tables self.now) parameter revision_only set block }
    {
        if !is_parameter(parameter) {
            return refusal(NO_PARAMETER);
        }
        if revision_only {
            return reply_with(&[]);
        }
        match parameter {
            SET_IN_PROGRESS => reply_with(&[self.set_in_progress]),
            CONTROL => reply_with(&[self.control]),
            ACTIONS => reply_with(&[self.actions]),
            DELAY => reply_with(&[self.delay]),
            FILTER_COUNT => reply_with(&[FILTERS]),
            FILTER => filter_reply(&self.filters, set % 128),
            FIRST_OCTET => first_octet_reply(&self.filters, set % 128),
            POLICY_COUNT => reply_with(&[POLICIES]),
            POLICY => policy_reply(&self.policies, set % 128),
            GUID => reply_with(&self.guid),
            STRING_COUNT => reply_with(&[STRINGS]),
            STRING_KEY => key_reply(&self.strings, set % 128),
            _ => block_reply(&self.strings, set % 128, block),
        }
    }

    /// Parameter 1, the control octet: bit 0 is 1 where PEF is enabled, bit 2 where the startup delay is.
    pub fn control(&self) -> u8
        ensures { tables self.now Control ≡ result ∷ [] }
    {
        self.control
    }

    /// Parameter 2: which actions may be done, by the bits of a filter's actions.
    pub fn actions(&self) -> u8
        ensures { tables self.now Actions ≡ result ∷ [] }
    {
        self.actions
    }

    /// Parameter 3, the startup delay in seconds.
    pub fn delay(&self) -> u8
        ensures { tables self.now Delay ≡ result ∷ [] }
    {
        self.delay
    }

    /// The event filters, by parameters 6 and 7.
    pub fn filters(&self) -> &Filters
        ensures { (n : ℕ) → numbered result.now n ≡ filter_at (tables self.now) n }
    {
        &self.filters
    }

    /// The alert policy entries, by parameter 9.
    pub fn policies(&self) -> &Policies
        ensures { (n : ℕ) → numbered result.now n ≡ tables self.now (Policy n) }
    {
        &self.policies
    }

    /// The system GUID of parameter 10, where its bit 0 says that it is to be used.
    pub fn guid(&self) -> Option<[u8; 16]>
        ensures { result ≡ guid_in (tables self.now) }
    {
        if self.guid[0] % 2 == 0 {
            return None;
        }
        let mut guid = [0; 16];
        guid.copy_from_slice(&self.guid[1..]);
        Some(guid)
    }

    /// The alert strings and their keys, by parameters 12 and 13.
    pub fn strings(&self) -> &Strings
        ensures keys { (n : ℕ) → key_at result.now n ≡ tables self.now (StringKey n) }
        ensures blocks { (n block : ℕ) → block_at result.now n block ≡ tables self.now (Block n block) }
    {
        &self.strings
    }
}
