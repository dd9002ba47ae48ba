//! Opening the files and the socket that a form's words name.
use crate::asked::Asked;
use crate::no_start::NoStart;
use crate::state_reader::StateReader;
use board_core::Address;
use pef_call::Form;
use real_devices::{FileBoard, FileSource, HeldFile, Plant, UdpFeed};

/// Opens the other file, then the state file with its plant. A form that formats creates the state file where it is missing. The state
/// file is neither read nor written.
pub fn open_files<'r, 'a>(
    rt: &'r HostRuntime,
    asked: &Asked<'a>,
) -> Result<(FileBoard<'r, HostRuntime>, FileSource), NoStart<'a>> {
    let (state, second) = (asked.state, asked.second);
    // this one first, so that no state file is made where it is missing
    let source = FileSource::open(rt, second).map_err(|error| NoStart::of(second, error))?;
    let formats = asked.form.formats();
    let opened = if formats {
        HeldFile::create(rt, state)
    } else {
        HeldFile::open(rt, state)
    };
    let file = opened.map_err(|fault| NoStart::of_state(state, fault))?;
    if formats {
        check_settings(asked, &file, &source)?;
    }
    let plant = open_plant(rt, state, &file)?;
    Ok((FileBoard::new(rt, file, plant), source))
}

/// Takes the address, then opens the state file with its plant. A controller's datagrams go out from this address, and a console's from
/// sockets of their own. The state file is neither read nor written.
pub fn open_feed<'r, 'a>(
    rt: &'r HostRuntime,
    asked: &Asked<'a>,
    at: &Address,
) -> Result<(FileBoard<'r, HostRuntime>, UdpFeed<'r, HostRuntime>), NoStart<'a>> {
    let feed = UdpFeed::bind(rt, at).map_err(|error| NoStart::of(asked.second, error))?;
    let state = asked.state;
    let file = HeldFile::open(rt, state).map_err(|fault| NoStart::of_state(state, fault))?;
    let plant = open_plant(rt, state, &file)?;
    if asked.form == Form::Live {
        let socket = feed
            .socket()
            .map_err(|error| NoStart::of(asked.second, error))?;
        let board = FileBoard::sending_from(rt, file, plant, socket);
        return Ok((board, feed));
    }
    Ok((FileBoard::new(rt, file, plant), feed))
}

/// Opens the state file alone, to be read. Nothing is read yet.
pub fn open_to_read<'a>(rt: &HostRuntime, asked: &Asked<'a>) -> Result<StateReader, NoStart<'a>> {
    StateReader::open(rt, asked.state).map_err(|fault| NoStart::of_state(asked.state, fault))
}

// The state file isn't the settings: it would be made of its own octets.
fn check_settings<'a>(
    asked: &Asked<'a>,
    file: &HeldFile,
    source: &FileSource,
) -> Result<(), NoStart<'a>> {
    let state = file.id().map_err(|error| NoStart::of(asked.state, error))?;
    let settings = source
        .id()
        .map_err(|error| NoStart::of(asked.second, error))?;
    if settings == state {
        return Err(NoStart::SettingsAreState(asked.second));
    }
    Ok(())
}

// The plant's file, which isn't the state file by another name.
fn open_plant<'a>(rt: &HostRuntime, state: &'a str, file: &HeldFile) -> Result<Plant, NoStart<'a>> {
    let plant = Plant::beside(rt, rt.alloc(), state).map_err(|error| NoStart::of_plant(
        state, error,
    ))?;
    let id = plant.id().map_err(|error| NoStart::of_plant(state, error))?;
    let state_id = file.id().map_err(|error| NoStart::of(state, error))?;
    if id == state_id {
        return Err(NoStart::PlantIsState(state));
    }
    Ok(plant)
}
