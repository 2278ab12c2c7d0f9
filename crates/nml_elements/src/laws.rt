ghost use Rattle.std.specs.Prelude.{◌↔◌, ℕ, IsTrue, List, Option};
ghost use Rattle.ml_base.specs.Text.{IsIdText};
ghost use Rattle.nml_elements.specs.IdTest.{is_id};
ghost use Rattle.nml_elements.specs.Lifetimes.{ExistsThroughout, Interval, Lifespan, exists_throughout};

/// The test of ids passes exactly the texts of ids.
pub fn ids_are_decided()
    ensures { (text : List ℕ) → IsTrue (is_id text) ↔ IsIdText text }
{}

/// The test of lifetimes passes exactly what exists throughout the window.
pub fn existing_is_decided()
    ensures { (window : Interval) (life : Option Lifespan) → IsTrue (exists_throughout window life) ↔ ExistsThroughout window life }
{}
