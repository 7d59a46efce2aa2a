// The share desk: the power that 2 to 8 controllers hold on one feeder, in hundreds of watts.
// A call takes the desk and hands back the desk as it then is. The crate `opening` opens one, `share_change` gives it new figures.
#![tactic(auto)]

ghost use Rattle.std.specs.Prelude.{◌≡◌, true, false, ◌≤◌, ◌<◌, ◌-◌};
ghost use Rattle.counting.specs.Counting.{sum, every};
ghost use Rattle.checking.specs.Refusals.{refusal_number};
ghost use Rattle.desk.specs.Desk.{most_power, most_controllers, holding, ceiling_of, reserved, reserved_for_others, with_holding};
ghost use Rattle.desk.specs.Checks.{in_range, ceiling_bound, place_ok, place_ok_at, desk_ok, not_of_desk};
ghost use Rattle.desk.specs.Calls.{claim_refusal, claimed, hand_back_refusal, handed_back, looked, answered};

use checking::Refusal;

// The largest limit of a feeder, in hundreds of watts.
pub const MOST_POWER: u32 = 400000;

// The fewest controllers of a desk.
pub const FEWEST_CONTROLLERS: usize = 2;

// The most controllers of a desk.
pub const MOST_CONTROLLERS: usize = 8;

// The desk as firmware keeps it, its figures in hundreds of watts: a place for each controller, and 0 past the last.
#[repr(C)]
#[derive(Clone, Copy)]
pub struct Desk {
    // How many controllers there are.
    pub count: u32,
    // The feeder's limit.
    pub limit: u32,
    // What each controller holds.
    pub held: [u32; MOST_CONTROLLERS],
    // What each controller is assured of.
    pub assured: [u32; MOST_CONTROLLERS],
    // What each controller may hold at most.
    pub ceiling: [u32; MOST_CONTROLLERS],
}

// What opening answers: the refusal's number, or 0 and the desk. Refused: a desk of zeros.
#[derive(Clone, Copy)]
pub struct Opened {
    pub refusal: u32,
    pub desk: Desk,
}

// What a claim, a hand-back or a change answers: the refusal's number, or 0, and the desk as it then is.
#[derive(Clone, Copy)]
pub struct Booked {
    pub refusal: u32,
    pub desk: Desk,
}

// What a look answers: the refusal's number, or 0, the desk, and the largest claim that would be granted now.
#[derive(Clone, Copy)]
pub struct Looked {
    pub refusal: u32,
    pub desk: Desk,
    pub power: u32,
}

// Whether x is low to high.
pub fn in_range(low: usize, high: usize, x: usize) -> bool
    ensures { result ≡ in_range low high x }
{
    low <= x && x <= high
}

// ---- the desks that can be

// The most that the ceiling of place i may be: the limit for a controller, 0 past the last.
fn ceiling_bound(limit: u32, count: u32, i: u32) -> u32
    ensures { result ≡ ceiling_bound limit count i }
{
    if i < count { limit } else { 0 }
}

// Whether share and holding are within the ceiling, and the ceiling within its bound.
fn place_ok(held: u32, assured: u32, ceiling: u32, bound: u32) -> bool
    ensures { result ≡ place_ok held assured ceiling bound }
{
    assured <= ceiling && held <= ceiling && ceiling <= bound
}

impl Desk {
    // What the controller of place i holds.
    fn holding_at(self, i: u32) -> u32
        requires { i < most_controllers }
        ensures { result ≡ holding self i }
    {
        self.held[i as usize]
    }

    // What is left for it below its ceiling, on a desk that can be.
    fn below_ceiling(self, i: u32) -> u32
        requires { (i < most_controllers) × (holding self i ≤ ceiling_of self i) }
        ensures { result ≡ ceiling_of self i - holding self i }
    {
        self.ceiling[i as usize] - self.holding_at(i)
    }

    // What is reserved for it.
    fn reserved_at(self, i: u32) -> u32
        requires { i < most_controllers }
        ensures { result ≡ reserved self i }
    {
        self.holding_at(i).max(self.assured[i as usize])
    }

    // The desk on which it holds so much.
    fn with_holding(mut self, i: u32, power: u32) -> Desk
        requires { i < most_controllers }
        ensures { result ≡ with_holding self i power }
    {
        self.held[i as usize] = power;
        self
    }

    // Whether place i is right.
    fn place_ok_at(self, i: u32) -> bool
        requires { i < most_controllers }
        ensures { result ≡ place_ok_at self i }
    {
        let place = i as usize;
        place_ok(
            self.held[place],
            self.assured[place],
            self.ceiling[place],
            ceiling_bound(self.limit, self.count, i),
        )
    }

    // Whether every place is, those past the last controller too.
    pub fn places_ok(self) -> bool
        ensures { result ≡ every most_controllers (place_ok_at self) }
    {
        for i in 0..MOST_CONTROLLERS as u32 {
            if !self.place_ok_at(i) {
                return false;
            }
        }
        true
    }

    // What is held or reserved, of a desk whose places are right: each place is within the limit, so that the sum fits.
    fn reserved_in_all(self) -> u32
        requires { (self.count ≤ most_controllers) × (self.limit ≤ most_power) × (every most_controllers (place_ok_at self) ≡ true) }
        ensures { result ≡ sum self.count (reserved self) }
    {
        let mut total = 0;
        for i in 0..self.count {
            total += self.reserved_at(i);
        }
        total
    }

    // The desk is one that an answered opening and later calls can leave.
    pub fn ok(self) -> bool
        ensures { result ≡ desk_ok self }
    {
        in_range(FEWEST_CONTROLLERS, MOST_CONTROLLERS, self.count as usize)
            && in_range(1, MOST_POWER as usize, self.limit as usize)
            && self.places_ok()
            && self.reserved_in_all() <= self.limit
    }

    // Check 14 fails: the number is none of the desk's controllers, or the desk cannot be.
    fn not_of_desk(self, controller: u32) -> bool
        ensures { result ≡ not_of_desk self controller }
    {
        self.count <= controller || !self.ok()
    }

    // What the other controllers hold or have reserved, on a desk that can be.
    fn reserved_for_others(self, controller: u32) -> u32
        requires { not_of_desk self controller ≡ false }
        ensures { result ≡ reserved_for_others self controller }
    {
        self.reserved_in_all() - self.reserved_at(controller)
    }

    // ---- claims, hand-backs and looks

    // Checks 14 to 17.
    fn check_claim(self, controller: u32, power: u32) -> Result<(), Refusal>
        ensures { refusal_number result ≡ claim_refusal self controller power }
    {
        if self.not_of_desk(controller) {
            return Err(Refusal::NotThere);
        }
        if power == 0 {
            return Err(Refusal::NoPower);
        }
        if self.below_ceiling(controller) < power {
            return Err(Refusal::AboveCeiling);
        }
        let limit = self.limit;
        if limit < self.holding_at(controller) + power + self.reserved_for_others(controller) {
            return Err(Refusal::AboveLimit);
        }
        Ok(())
    }

    // Checks 14, 15 and 18.
    fn check_hand_back(self, controller: u32, power: u32) -> Result<(), Refusal>
        ensures { refusal_number result ≡ hand_back_refusal self controller power }
    {
        if self.not_of_desk(controller) {
            return Err(Refusal::NotThere);
        }
        if power == 0 {
            return Err(Refusal::NoPower);
        }
        if self.holding_at(controller) < power {
            return Err(Refusal::AboveHolding);
        }
        Ok(())
    }

    // The desk on which the claim is booked.
    fn with_claim(self, controller: u32, power: u32) -> Result<Desk, Refusal>
        ensures { answered self result ≡ claimed self controller power }
    {
        self.check_claim(controller, power)?;
        let held = self.holding_at(controller) + power;
        Ok(self.with_holding(controller, held))
    }

    // The desk on which the hand-back is booked.
    fn with_hand_back(self, controller: u32, power: u32) -> Result<Desk, Refusal>
        ensures { answered self result ≡ handed_back self controller power }
    {
        self.check_hand_back(controller, power)?;
        let held = self.holding_at(controller) - power;
        Ok(self.with_holding(controller, held))
    }

    // What a call on the desk answers: the desk that it leaves, or the refusal's number and the desk as before.
    pub fn answer(self, outcome: Result<Desk, Refusal>) -> Booked
        ensures { result ≡ answered self outcome }
    {
        match outcome {
            Ok(desk) => Booked { refusal: 0, desk },
            Err(refusal) => Booked {
                refusal: refusal.number(),
                desk: self,
            },
        }
    }

    // Claims power for the controller: checks 14 to 17. Granted, it is booked; refused, the desk is as before.
    pub fn claim(mut self, controller: u32, power: u32) -> Booked
        ensures { result ≡ claimed self controller power }
    {
        self.answer(self.with_claim(controller, power))
    }

    // Hands power of the controller back: checks 14, 15, 18.
    pub fn hand_back(mut self, controller: u32, power: u32) -> Booked
        ensures { result ≡ handed_back self controller power }
    {
        self.answer(self.with_hand_back(controller, power))
    }

    // The largest claim by the controller that would be granted now, 0 if none: check 14. The desk is as before.
    pub fn look(mut self, controller: u32) -> Looked
        ensures { result ≡ looked self controller }
    {
        if self.not_of_desk(controller) {
            return Looked {
                refusal: Refusal::NotThere.number(),
                desk: self,
                power: 0,
            };
        }
        let below_ceiling = self.below_ceiling(controller);
        let held = self.holding_at(controller);
        let beside_others = self.limit - (held + self.reserved_for_others(controller));
        Looked {
            refusal: 0,
            desk: self,
            power: below_ceiling.min(beside_others),
        }
    }
}
