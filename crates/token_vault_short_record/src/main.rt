// The program on a good image, a record, and a short last record.
#![tactic(auto)]

fn main(rt: HostRuntime) {
    vault_program::main_loop(&mut rt.stdin(), &mut rt.stdout());
}
