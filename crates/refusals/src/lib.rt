// The refusals and the three components, by name: no other refusal and no fourth component can be named. What a call
// says is a Result with one of them. specs/ has the paper's number for each, what comes of a call, and how its refusal
// comes from the list of its faults: it is the first that holds.
#![tactic(auto)]

pub mod ranges;

ghost use Rattle.std.specs.Prelude.{◌≡◌};
ghost use Rattle.refusals.specs.Numbers.{number_of, component_of};
ghost use Rattle.refusals.specs.Three.{part_of};
ghost use Rattle.refusals.specs.Faults.{of_whole};

#[derive(Clone, Copy)]
pub enum Refusal {
    Side,
    Qp,
    Lambda,
    Cost,
    Length,
    Sample,
    Level,
    Price,
    Distortion,
    Room,
    Symbol,
    Height,
}

#[derive(Clone, Copy)]
pub enum Component {
    Y,
    U,
    V,
}

// Why a call over components is refused, and for which of them.
#[derive(Clone, Copy)]
pub struct Refused {
    pub why: Refusal,
    pub component: Component,
}

// A value for each component.
#[derive(Clone, Copy)]
pub struct Three<T> {
    pub y: T,
    pub u: T,
    pub v: T,
}

// What is wrong with the call as a whole belongs to no component, and counts as Y's.
impl From<Refusal> for Refused {
    ghost from_gives = { λ why refused. refused ≡ of_whole why };

    fn from(why: Refusal) -> Refused {
        Refused {
            why,
            component: Component::Y,
        }
    }
}

// The paper's number of a refusal, for those who know no names.
impl From<Refusal> for u32 {
    ghost from_gives = { λ why number. number ≡ number_of why };

    fn from(why: Refusal) -> u32 {
        match why {
            Refusal::Side => 1,
            Refusal::Qp => 2,
            Refusal::Lambda => 3,
            Refusal::Cost => 4,
            Refusal::Length => 5,
            Refusal::Sample => 6,
            Refusal::Level => 7,
            Refusal::Price => 8,
            Refusal::Distortion => 9,
            Refusal::Room => 10,
            Refusal::Symbol => 11,
            Refusal::Height => 15,
        }
    }
}

// And of a component.
impl From<Component> for u32 {
    ghost from_gives = { λ component number. number ≡ component_of component };

    fn from(component: Component) -> u32 {
        match component {
            Component::Y => 0,
            Component::U => 1,
            Component::V => 2,
        }
    }
}

impl<T: Copy> Three<T> {
    pub fn of(self, component: Component) -> T
        ensures { result ≡ part_of component self }
    {
        match component {
            Component::Y => self.y,
            Component::U => self.u,
            Component::V => self.v,
        }
    }
}
