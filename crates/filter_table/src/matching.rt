//! Which events a filter matches.
ghost use Rattle.std.specs.Prelude.{◌≡◌, ◌↔◌, IsTrue};
ghost use Rattle.filter_table.specs.BitTest.{is_match};
ghost use Rattle.filter_table.specs.Matching.{Takes, TakesSource, HasOffset, FitsData, Matches};

use crate::filter::Filter;
use event_record::Record;

/// The record type of a system event.
const SYSTEM_EVENT: u8 = 0x02;
/// In a filter, the octet that takes every value.
const ANY: u8 = 0xFF;

/// Whether the filter matches the event, by IPMI 2.0, section 17.7. No filter matches an OEM record.
pub fn matches(filter: &Filter, event: &Record) -> bool
    ensures value { result ≡ is_match filter.now event.now }
    ensures meaning { IsTrue result ↔ Matches filter.now event.now }
{
    if !filter.is_enabled() || event.kind() != SYSTEM_EVENT {
        return false;
    }
    takes_source(filter, event) && has_offset(filter, event) && fits_data(filter, event)
}

fn takes_source(filter: &Filter, event: &Record) -> bool
    ensures { IsTrue result ↔ TakesSource filter.now event.now }
{
    let [wanted_1, wanted_2] = filter.generator();
    let [generator_1, generator_2] = event.generator();
    takes(wanted_1, generator_1)
        && takes(wanted_2, generator_2)
        && takes(filter.sensor_type(), event.sensor_type())
        && takes(filter.sensor(), event.sensor())
        && takes(filter.trigger(), event.trigger())
}

fn takes(wanted: u8, value: u8) -> bool
    ensures { IsTrue result ↔ Takes wanted value }
{
    wanted == ANY || wanted == value
}

fn has_offset(filter: &Filter, event: &Record) -> bool
    ensures { IsTrue result ↔ HasOffset filter.now event.now }
{
    let [event_data_1, _, _] = event.event_data();
    let offset = event_data_1 % 16;
    (filter.offset_mask() >> offset) & 1 == 1
}

fn fits_data(filter: &Filter, event: &Record) -> bool
    ensures { IsTrue result ↔ FitsData filter.now event.now }
{
    let [test_1, test_2, test_3] = filter.data_tests();
    let [data_1, data_2, data_3] = event.event_data();
    test_1.fits(data_1) && test_2.fits(data_2) && test_3.fits(data_3)
}
