//! Words behind the program's name, and files that cannot be read.
use crate::command::Command;
use crate::run_files;
use room::Room;
use std::test::Fail;

#[test]
fn words_are_commands(rt: HostRuntime) {
    let commands: [(&[&str], Command); 9] = [
        (&[], Command::Scripts),
        (&["--help"], Command::Help),
        (&["a"], Command::Scripts),
        (&["a", "b", "a"], Command::Scripts),
        (&["help"], Command::Scripts),
        (&["-"], Command::NoOption),
        (&["--help", "a"], Command::NoOption),
        (&["a", "--help"], Command::NoOption),
        (&["--version"], Command::NoOption),
    ];
    for (words, command) in commands {
        assert_eq!(rt; Command::of(words), command);
    }
}

#[test]
fn a_script_that_cannot_be_opened_is_an_error(rt: HostRuntime) -> Result<(), Fail> {
    let mut room = Room::new(rt.alloc())?;
    assert!(rt; run_files(&rt, &["no such script"], &mut room).is_err());
    assert!(rt; run_files(&rt, &["."], &mut room).is_err(), "a directory");
    assert!(rt;
        run_files(&rt, &["/dev/null", "no such script"], &mut room).is_err(),
        "behind another one"
    );
    assert!(rt;
        run_files(&rt, &["/dev/null"], &mut room).is_ok(),
        "a script of no lines"
    );
    let none: [&str; 0] = [];
    assert!(rt; run_files(&rt, &none, &mut room).is_ok());
    Ok(())
}
