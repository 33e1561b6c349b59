// The program of the token vault: reads an image, then records, and prints a line a record.
#![tactic(auto)]

fn main(rt: HostRuntime) {
    vault_program::main_loop(&mut rt.stdin(), &mut rt.stdout());
}
