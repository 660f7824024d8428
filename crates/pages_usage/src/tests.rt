use crate::usage;
use std::test::Fail;

const WANTED: &str = "\
Usage: pages serve [OPTIONS] --port <P> --editor-port <E> --workers <W>
Usage: pages play [OPTIONS]
Usage: pages preview [OPTIONS]
Usage: pages record [OPTIONS]
Usage: pages contexts [OPTIONS] <NAMES>
Usage: pages check <PATH>
Usage: pages load <N>
";

#[test]
fn each_command_is_said_to_be_called_as_it_is(rt: HostRuntime) -> Result<(), Fail> {
    let told = usage(rt.alloc())?;
    assert_eq!(rt; told.as_str(), WANTED);
    Ok(())
}
