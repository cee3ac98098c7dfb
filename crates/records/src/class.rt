// Classes of lines: a fixed table, in which the class of every line is looked up (rules 3.1 to 3.4).
ghost use Rattle.std.specs.Prelude.{◌≡◌};
ghost use Rattle.records.specs.Classes.{class_allowed, ClassPromise, factor_allowed, no_class};

use crate::plant::Plant;
use crate::segment::Segment;

// A row of the table: a class, its equations in the annex, who may have it, and how its grams count (rules 3.1 and 3.4).
#[derive(Clone, Copy)]
pub struct Class {
    pub code: u8,
    // The first of its equations, and the last; most classes have one.
    pub equation: u8,
    pub last_equation: u8,
    pub plant: bool,
    pub segment: bool,
    // Whether its grams are part of the owner's total, whether they are fuel, and whether they are taken off fuel.
    pub added: bool,
    pub fuel: bool,
    pub captured: bool,
}

impl Class {
    // How many rows the table has.
    pub const ROWS: usize = 9;
    // The codes of its first row and its last.
    pub const FIRST: u64 = 1;

    pub const LAST: u64 = Class::ROWS as u64;
    // The largest factor, and the only one of what is captured, whose quantity is CO2 in kg (rule 3.3).
    pub const LARGEST_FACTOR: u64 = 1_000_000_000;

    pub const GRAMS_IN_KG: u64 = 1000;

    // The first row with a code; if the table has none, a row without owners, whose grams count nowhere, so that no caller has a case of its own
    // for it (rules 3.2 and 3.4). The compiler unrolls the search and keeps of the table what the caller asks for: finding a row by its index
    // takes longer, since the table is copied first.
    pub fn of(code: u64) -> Class
        ensures { ClassPromise code result }
    {
        for class in CLASSES {
            if class.code as u64 == code {
                return class;
            }
        }
        Class::none()
    }

    // Whether the table allows a class to an owner of this kind (rule 3.2).
    pub(crate) fn allowed(code: u64, owner_kind: u64) -> bool
        ensures { result ≡ class_allowed owner_kind code }
    {
        match owner_kind {
            Plant::OWNER_KIND => Class::of(code).plant,
            Segment::OWNER_KIND => Class::of(code).segment,
            _ => false,
        }
    }

    // Whether a line of a class may have this factor (rule 3.3).
    pub(crate) fn factor_allowed(code: u64, factor: u64) -> bool
        ensures { result ≡ factor_allowed code factor }
    {
        let class = Class::of(code);
        if class.captured {
            return factor == Class::GRAMS_IN_KG;
        }
        factor <= Class::LARGEST_FACTOR
    }

    // The row for codes that the table does not have.
    fn none() -> Class
        ensures { result ≡ no_class }
    {
        Class {
            code: 0,
            equation: 0,
            last_equation: 0,
            plant: false,
            segment: false,
            added: false,
            fuel: false,
            captured: false,
        }
    }
}

// The table of classes, row by row (rule 3.1).
const CLASSES: [Class; Class::ROWS] = [
    // extra biomass
    Class {
        code: 1,
        equation: 19,
        last_equation: 19,
        plant: true,
        segment: false,
        added: true,
        fuel: false,
        captured: false,
    },
    // biomass storage, ready amount
    Class {
        code: 2,
        equation: 20,
        last_equation: 20,
        plant: true,
        segment: false,
        added: true,
        fuel: false,
        captured: false,
    },
    // fuel
    Class {
        code: 3,
        equation: 21,
        last_equation: 21,
        plant: true,
        segment: true,
        added: true,
        fuel: true,
        captured: false,
    },
    // net electricity
    Class {
        code: 4,
        equation: 22,
        last_equation: 22,
        plant: true,
        segment: true,
        added: true,
        fuel: false,
        captured: false,
    },
    // net useful heat
    Class {
        code: 5,
        equation: 23,
        last_equation: 23,
        plant: true,
        segment: true,
        added: true,
        fuel: false,
        captured: false,
    },
    // inputs
    Class {
        code: 6,
        equation: 24,
        last_equation: 24,
        plant: true,
        segment: true,
        added: true,
        fuel: false,
        captured: false,
    },
    // construction materials
    Class {
        code: 7,
        equation: 73,
        last_equation: 74,
        plant: true,
        segment: true,
        added: true,
        fuel: false,
        captured: false,
    },
    // waste disposal
    Class {
        code: 8,
        equation: 18,
        last_equation: 18,
        plant: true,
        segment: false,
        added: true,
        fuel: false,
        captured: false,
    },
    // fossil CO2 captured with the rest
    Class {
        code: 9,
        equation: 21,
        last_equation: 21,
        plant: true,
        segment: false,
        added: false,
        fuel: false,
        captured: true,
    },
];
