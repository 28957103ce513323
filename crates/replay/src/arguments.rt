// The arguments of the program: none, or `--config` and the name of a configuration file.
use program::{PATH_ROOM, argument, argument_count, path_argument};
use steps::Configuration;

// As `is_all` of explain: two lines, shorter than a shared call with its contract.
fn has_option(rt: HostRuntime) -> bool {
    let mut word = [0u8; 8];
    argument(rt, 1, &mut word).is_some() && word == *b"--config"
}

pub(crate) fn are_right(rt: HostRuntime) -> bool {
    match argument_count(rt) {
        1 => true,
        3 => has_option(rt),
        _ => false,
    }
}

// What the named file gives, where one is named; its portions are read into lent memory.
pub(crate) fn asked_configuration(rt: HostRuntime, portion: &mut [u8]) -> Configuration {
    let mut path = [0u8; PATH_ROOM];
    let n = path_argument(rt, 2, &mut path)?;
    Some(runs::read_configuration(rt, &path[..n], portion))
}
