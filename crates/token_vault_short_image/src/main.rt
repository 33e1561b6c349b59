// The program on an image that is a byte short.
#![tactic(auto)]

fn main(rt: HostRuntime) {
    vault_program::main_loop(&mut rt.stdin(), &mut rt.stdout());
}
