#![tactic(auto)]

// What an independent reference answered, computed from the meaning as in `cases`: sound and unsound holdings, steps, room, and undos.
