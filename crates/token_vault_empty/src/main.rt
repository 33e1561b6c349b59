// The program on no input at all.
#![tactic(auto)]

fn main(rt: HostRuntime) {
    vault_program::main_loop(&mut rt.stdin(), &mut rt.stdout());
}
