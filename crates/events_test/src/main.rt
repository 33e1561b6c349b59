// Each kind of event, written to a place of the buffer: its 56 bytes in hexadecimal, and whether the rest of the buffer is zero.
#![tactic(auto)]

ghost use Rattle.std.specs.Prelude.{◌<◌};

use amount::Amount;
use answer_line::Hexadecimal;
use events::{EVENT_LENGTH, Event, LENGTH};
use std::io;

fn show(rt: &impl Print, i: usize, e: Event) -> io::Result<()>
    requires { i < 16 }
{
    let mut buffer = [255u8; LENGTH];
    events::clear_events(&mut buffer);
    events::put_event(&mut buffer, i, e);
    let (places, _) = buffer.as_chunks::<EVENT_LENGTH>();
    print!(rt; "{}", Hexadecimal(&places[i]))?;
    let rest_is_zero = places
        .iter()
        .enumerate()
        .all(|(n, place)| n == i || fields::are_zero(place));
    if rest_is_zero {
        println!(rt; " rest zero")
    } else {
        println!(rt; " rest not zero")
    }
}

fn deposits(rt: &impl Print) -> io::Result<()> {
    show(
        rt,
        0,
        Event::Initialized {
            owner: 2,
            token: 48,
            max_limit: Amount::from(1000),
        },
    )?;
    show(
        rt,
        1,
        Event::Deposited {
            from: 3,
            amount: Amount::from(258),
            new_balance: Amount::from(65536),
        },
    )?;
    show(
        rt,
        2,
        Event::TokenDeposited {
            from: 4,
            gross_amount: Amount::from(10),
            fee_amount: Amount::from(9),
            net_amount: Amount::from(1),
        },
    )
}

fn withdrawals(rt: &impl Print) -> io::Result<()> {
    show(
        rt,
        3,
        Event::Withdrawn {
            caller: 2,
            to: 5,
            amount: Amount::from(40),
            new_balance: Amount(-1),
            by_operator: true,
        },
    )?;
    show(
        rt,
        4,
        Event::Withdrawn {
            caller: 2,
            to: 5,
            amount: Amount::from(40),
            new_balance: Amount::from(60),
            by_operator: false,
        },
    )
}

fn limits(rt: &impl Print) -> io::Result<()> {
    show(
        rt,
        5,
        Event::LimitSet {
            caller: 2,
            old_limit: Amount::from(1000),
            new_limit: Amount::from(2000),
        },
    )?;
    show(
        rt,
        6,
        Event::OperatorWithdrawLimitSet {
            caller: 2,
            old_limit: Amount::from(0),
            new_limit: Amount::from(50),
        },
    )?;
    show(
        rt,
        7,
        Event::OperatorSet {
            caller: 2,
            operator: 3,
        },
    )?;
    show(rt, 8, Event::OperatorRevoked { caller: 2 })
}

fn pauses(rt: &impl Print) -> io::Result<()> {
    show(
        rt,
        9,
        Event::Paused {
            caller: 2,
            paused_at: 18446744073709551615,
        },
    )?;
    show(
        rt,
        10,
        Event::Unpaused {
            caller: 2,
            resumed_at: 604800,
        },
    )
}

fn owners(rt: &impl Print) -> io::Result<()> {
    show(
        rt,
        11,
        Event::OwnerProposed {
            caller: 2,
            new_owner: 6,
        },
    )?;
    show(
        rt,
        12,
        Event::OwnerAccepted {
            caller: 6,
            old_owner: 2,
        },
    )?;
    show(
        rt,
        13,
        Event::OwnerProposalTtlSet {
            caller: 6,
            old_ttl: 604800,
            new_ttl: 1,
        },
    )
}

fn migrations(rt: &impl Print) -> io::Result<()> {
    show(
        rt,
        14,
        Event::EmergencyMigrationInitiated {
            caller: 2,
            destination: 7,
            executable_at: 172800,
        },
    )?;
    show(
        rt,
        15,
        Event::EmergencyMigrationExecuted {
            caller: 2,
            destination: 7,
            amount: Amount::from(100),
        },
    )?;
    show(rt, 0, Event::EmergencyMigrationCancelled { caller: 2 })
}

fn tokens(rt: &impl Print) -> io::Result<()> {
    show(
        rt,
        1,
        Event::VaultDepositFailed {
            from: 3,
            token: 48,
            amount: Amount::from(500),
        },
    )?;
    show(
        rt,
        2,
        Event::TokenApprovalChanged {
            token: 49,
            approved: true,
        },
    )?;
    show(
        rt,
        3,
        Event::TokenApprovalChanged {
            token: 49,
            approved: false,
        },
    )
}

// The number of the refusal of each length, and 0 where there is none.
fn lengths(rt: &impl Print) -> io::Result<()> {
    let bytes = [0u8; LENGTH + 1];
    for bytes in [&bytes[..LENGTH], &bytes[..LENGTH - 1], &bytes] {
        println!(rt; "{}", refusal::number(&events::buffer_check(bytes)))?;
    }
    Ok(())
}

fn main(rt: HostRuntime) -> io::Result<()> {
    deposits(&rt)?;
    withdrawals(&rt)?;
    limits(&rt)?;
    pauses(&rt)?;
    owners(&rt)?;
    migrations(&rt)?;
    tokens(&rt)?;
    lengths(&rt)
}
