//! `cxx_champion`: contests in memory that count how often two members are compared.

ghost use Rattle.std.specs.Prelude.{◌≡◌, ◌<◌};

use crate::games::{Game, Rule};
use cxx_champion::{Verdict, best_of, counter_of};
use cxx_model::Steps;
use std::alloc::AllocError;
use std::marker::Brand;
use std::sync::ledger::{Blank, Ledger};
use std::test::Fail;

fn verdict_by<L: Ledger>(game: &Game, blank: Blank) -> Result<Verdict, AllocError>
    requires name { blank.name ≡ L.name }
    requires parts { blank.parts ≡ L.parts }
    requires some { 0 < blank.parts }
{
    best_of(game, &mut Steps::<L>::new(blank))
}

fn verdict(game: &Game) -> Result<Verdict, AllocError> {
    verdict_by::<Brand>(game, Blank::new(1))
}

fn counter_by<L: Ledger>(
    game: &Game,
    member: usize,
    blank: Blank,
) -> Result<Option<usize>, AllocError>
    requires member { member < game.now.members }
    requires name { blank.name ≡ L.name }
    requires parts { blank.parts ≡ L.parts }
    requires some { 0 < blank.parts }
{
    counter_of(game, member, &mut Steps::<L>::new(blank))
}

fn counter(game: &Game, member: usize) -> Result<Option<usize>, AllocError>
    requires { member < game.now.members }
{
    counter_by::<Brand>(game, member, Blank::new(1))
}

#[test]
fn none_is_best_of_none(rt: HostRuntime) -> Result<(), Fail> {
    let game = Game::new(0, Rule::LaterWins);
    assert!(rt; verdict(&game)? == Verdict::Empty);
    assert!(rt; game.compared.get() == 0);
    Ok(())
}

#[test]
fn one_is_best_alone(rt: HostRuntime) -> Result<(), Fail> {
    let game = Game::new(1, Rule::LaterWins);
    assert!(rt; verdict(&game)? == Verdict::Best(0));
    assert!(rt; game.compared.get() == 0);
    Ok(())
}

// 0 beats 1, which beats 2, which beats 0.
#[test]
fn none_is_best_in_a_circle(rt: HostRuntime) -> Result<(), Fail> {
    let game = Game::new(3, Rule::Circle);
    let Verdict::NoBest { champion, counter } = verdict(&game)? else {
        return Err(Fail::new("there is a best member"));
    };
    assert!(rt; game.compared.get() <= 4);
    assert!(rt; champion < 3 && counter == (champion + 2) % 3);
    Ok(())
}

#[test]
fn each_in_a_circle_has_a_counter(rt: HostRuntime) -> Result<(), Fail> {
    let game = Game::new(3, Rule::Circle);
    assert!(rt; counter(&game, 0)? == Some(2));
    assert!(rt; counter(&game, 1)? == Some(0));
    assert!(rt; counter(&game, 2)? == Some(1));
    assert!(rt; game.compared.get() <= 6);
    Ok(())
}

#[test]
fn last_of_many_is_best(rt: HostRuntime) -> Result<(), Fail> {
    let game = Game::new(4096, Rule::LaterWins);
    assert!(rt; verdict(&game)? == Verdict::Best(4095));
    assert!(rt; game.compared.get() <= 8190);
    Ok(())
}

#[test]
fn best_of_many_has_no_counter(rt: HostRuntime) -> Result<(), Fail> {
    let game = Game::new(4096, Rule::LaterWins);
    assert!(rt; counter(&game, 4095)? == None);
    assert!(rt; game.compared.get() <= 4095);
    Ok(())
}

#[test]
fn comparison_without_memory_ends_it(rt: HostRuntime) -> Result<(), Fail> {
    let mut game = Game::new(3, Rule::Circle);
    game.failing = 2;
    assert!(rt; verdict(&game).is_err());
    assert!(rt; game.compared.get() == 2);
    Ok(())
}
