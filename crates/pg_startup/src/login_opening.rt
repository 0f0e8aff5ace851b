//! The frame that begins a startup.

ghost use Rattle.std.specs.Prelude.{◌≡◌, ◌++◌, MatchResult, Ok, Err, IfOk, OnOk, option_map};
ghost use Rattle.pg_spec.specs.Settings.{named, startup_parameters};
ghost use Rattle.pg_config.specs.Views.{settings_of};
ghost use Rattle.pg_startup.specs.Steps.{Made, frame_of};

use bytes::BytesMut;
use pg_config::Config;
use pg_errors::{Cause, Error};
use pg_types::OutOfMemory;
use pg_wire::{FrameFault, StartupParams, startup_message};
use std::alloc::Global;

/// Adds a parameter where it is set.
fn add(
    alloc: Global,
    params: &mut StartupParams,
    name: &str,
    value: Option<&str>,
) -> Result<(), OutOfMemory>
    ensures { OnOk result (params.new ≡ params.old ++ named name.now (option_map (λ text. text.now) value.entry)) }
{
    match value {
        Some(value) => params.push(alloc, name, value),
        None => Ok(()),
    }
}

/// The parameters of the startup frame: the client's encoding, and what is set of user, database, options and
/// application name.
fn parameters(alloc: Global, config: &Config) -> Result<StartupParams, OutOfMemory>
    ensures { IfOk result (λ params. params ≡ startup_parameters (settings_of config.now)) }
{
    let mut params = StartupParams::new(alloc);
    params.push(alloc, "client_encoding", "UTF8")?;
    add(alloc, &mut params, "user", config.get_user())?;
    add(alloc, &mut params, "database", config.get_dbname())?;
    add(alloc, &mut params, "options", config.get_options())?;
    add(
        alloc,
        &mut params,
        "application_name",
        config.get_application_name(),
    )?;
    Ok(params)
}

/// The startup frame of the settings. Encode comes exactly where its writer refuses it.
pub fn opening_frame(alloc: Global, config: &Config) -> Result<BytesMut, Error>
    ensures { MatchResult result (λ frame. Made (frame_of (settings_of config.now)) (Ok frame.items)) (λ e. Made (frame_of (settings_of config.now)) (Err e)) }
{
    let params = parameters(alloc, config)?;
    let mut frame = BytesMut::new(alloc);
    match startup_message(&params, &mut frame) {
        Ok(()) => Ok(frame),
        Err(FrameFault::OutOfMemory) => Err(Error::OutOfMemory),
        Err(fault) => Err(Error::Encode(Cause::Frame(fault))),
    }
}
