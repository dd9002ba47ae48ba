//! Worked strings.
use alert_strings::*;
use std::test::Fail;

#[test]
fn a_block_is_written_and_read_alone(rt: HostRuntime) -> Result<(), Fail> {
    let mut strings = Strings::new();
    strings.set_block(1, 1, b"fan")?;
    let mut fan = [0; 16];
    fan[..3].copy_from_slice(b"fan");
    for number in 0..=8 {
        for block in 1..=4 {
            let wanted = if (number, block) == (1, 1) {
                fan
            } else {
                [0; 16]
            };
            assert_eq!(rt;
                strings.get_block(number, block)?,
                wanted,
                "{number} {block}"
            );
        }
    }
    // A shorter part leaves nothing of the longer one before it.
    strings.set_block(8, 4, &[0x41; 16])?;
    strings.set_block(8, 4, &[0x42])?;
    let mut last = [0; 16];
    last[0] = 0x42;
    assert_eq!(rt; strings.get_block(8, 4)?, last);
    assert_eq!(rt; strings.get_block(8, 3)?, [0; 16]);
    Ok(())
}

#[test]
fn a_number_is_refused_before_a_block(rt: HostRuntime) -> Result<(), Fail> {
    let rows = [
        (9, 1, StringFault::NoSuch(9)),
        (255, 0, StringFault::NoSuch(255)),
        (8, 0, StringFault::NoBlock(0)),
        (0, 5, StringFault::NoBlock(5)),
        (1, 255, StringFault::NoBlock(255)),
    ];
    let mut strings = Strings::new();
    for (number, block, fault) in rows {
        assert_eq!(rt; strings.set_block(number, block, b"x"), Err(fault));
        assert_eq!(rt; strings.get_block(number, block).err(), Some(fault));
    }
    assert_eq!(rt; strings.set_key(9, 1, 2), Err(StringFault::NoSuch(9)));
    assert_eq!(rt; strings.get_key(9).err(), Some(StringFault::NoSuch(9)));
    let alloc = rt.alloc();
    let (number, block) = (StringFault::NoSuch(9), StringFault::NoBlock(5));
    assert_eq!(rt;
        format!(in alloc; "{number}")?.as_str(),
        "there is no alert string 9"
    );
    assert_eq!(rt;
        format!(in alloc; "{block}")?.as_str(),
        "there is no block 5 in an alert string"
    );
    Ok(())
}

#[test]
fn a_key_names_the_least_string_with_it(rt: HostRuntime) -> Result<(), Fail> {
    let mut strings = Strings::new();
    strings.set_key(0, 1, 2)?;
    strings.set_key(1, 0x81, 0x82)?;
    strings.set_key(3, 1, 2)?;
    strings.set_key(8, 5, 2)?;
    assert_eq!(rt; strings.get_key(1)?, (0x81, 0x82));
    // The key, the filter, and the string; 99 is none.
    let rows = [
        (0x82, 1, 1),
        (0x82, 2, 99),
        (0x82, 5, 8),
        (0x83, 1, 99),
        (0x80, 0, 2),
        (0x82, 0x81, 99),
        (0x00, 1, 99),
        (0x01, 1, 1),
        (0x08, 1, 8),
        (0x09, 1, 99),
        (0x7F, 1, 99),
    ];
    for (key, filter, number) in rows {
        assert_eq!(rt;
            strings.text_for(key, filter).unwrap_or(99),
            number,
            "{key} {filter}"
        );
    }
    Ok(())
}

#[test]
fn a_text_ends_before_the_first_00h_and_has_61_octets_at_most(rt: HostRuntime) -> Result<(), Fail> {
    let mut strings = Strings::new();
    assert_eq!(rt; strings.text(1).as_slice().len(), 0);
    strings.set_block(1, 1, b"fan")?;
    strings.set_block(1, 2, b"behind")?;
    assert_eq!(rt; strings.text(1).as_slice(), b"fan".as_slice());
    strings.set_block(1, 1, b"fan of the tower")?;
    assert_eq!(rt;
        strings.text(1).as_slice(),
        b"fan of the towerbehind".as_slice()
    );
    for block in 1..=4 {
        strings.set_block(8, block, &[0x41; 16])?;
    }
    assert_eq!(rt; strings.text(8).as_slice().len(), 61);
    strings.set_block(8, 4, &[0x41; 14])?;
    assert_eq!(rt; strings.text(8).as_slice().len(), 61);
    strings.set_block(8, 4, &[0x41; 12])?;
    assert_eq!(rt; strings.text(8).as_slice().len(), 60);
    assert_eq!(rt; strings.text(0).as_slice().len(), 0);
    Ok(())
}
