// The program on a zero image and a record of zeros but operation 24.
#![tactic(auto)]

fn main(rt: HostRuntime) {
    vault_program::main_loop(&mut rt.stdin(), &mut rt.stdout());
}
